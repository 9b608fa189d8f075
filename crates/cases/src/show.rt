// What the cases print.
ghost use Rattle.std.specs.Prelude.{◌<◌, ◌≤◌, ◌^◌};

use rdp::refusal::Refusal;
use std::io;
use std::io::Write;

pub(crate) fn number<W: Write>(output: &mut W, n: u64) -> io::Result<()> {
    write!(output, " {n}")
}

// The number of a refusal, 0 for none.
pub(crate) fn refusal<T: Copy, W: Write>(
    output: &mut W,
    answer: Result<T, Refusal>,
) -> io::Result<()> {
    let refusal = match answer {
        Ok(_) => 0,
        Err(refusal) => refusal.number(),
    };
    number(output, refusal as u64)
}

// One byte more of a weight.
fn weigh_byte(weight: u64, base: u64, modulus: u64, byte: u8) -> u64
    requires { (weight < 2 ^ 32) × (base ≤ 257) × (0 < modulus) × (modulus ≤ 2 ^ 32) }
    ensures { result < 2 ^ 32 }
{
    (weight * base + byte as u64) % modulus
}

// A number that tells lists apart which differ in a byte, or in the order of two. It goes on from another.
pub(crate) fn weight(start: u64, base: u64, modulus: u64, bytes: &[u8]) -> u64
    requires { (start < 2 ^ 32) × (base ≤ 257) × (0 < modulus) × (modulus ≤ 2 ^ 32) }
    ensures { result < 2 ^ 32 }
{
    let mut weight = start;
    for byte in bytes {
        weight = weigh_byte(weight, base, modulus, *byte);
    }
    weight
}
