// A number's decimal digits, and a byte after them.
ghost use Rattle.std.specs.Prelude.{◌≡◌, [], ◌∷◌, ◌++◌, ◌+◌, ◌≤◌, ltb, length, take};
ghost use Rattle.rules.specs.Base.{over};
ghost use Rattle.rules.specs.Lister.{decimal, number_room, number_text, number_call};
ghost use Rattle.rdp.specs.View.{text_answered};

use rdp::refusal::Refusal;

// The bytes of the longest number with one byte after it.
pub const NUMBER_ROOM: usize = 11;

// A number's decimal digits at the front of `out`, and how many they are.
fn put_digits(n: u32, out: &mut [u8]) -> usize
    requires { length (decimal n) ≤ length out.old }
    ensures value { result ≡ length (decimal n) }
    ensures out_after { out.new ≡ over (decimal n) out.old }
{
    if n < 10 {
        out[0] = n as u8 + b'0';
        return 1;
    }
    let k = put_digits(n / 10, out);
    out[k] = (n % 10) as u8 + b'0';
    k + 1
}

// A number's digits and the byte that follows them, from `at` on. The new end is answered.
fn write_number(n: u32, after: u8, out: &mut [u8], at: usize) -> usize
    requires { at + number_room ≤ length out.old }
    ensures value { result ≡ at + length (number_text n after) }
    ensures out_after { out.new ≡ over (take at out.old ++ number_text n after) out.old }
{
    let end = at + put_digits(n, &mut out[at..]);
    out[end] = after;
    end + 1
}

// From `at` on there is less room than the longest number takes.
fn is_short(out: &[u8], at: usize) -> bool
    ensures { result ≡ ltb (length out.now) (at + number_room) }
{
    out.len().saturating_sub(at) < NUMBER_ROOM
}

// A number's digits and the byte that follows them, from `at` on, and their end; or the refusal 6, and `out` as it was lent.
pub fn put_number(n: u32, after: u8, out: &mut [u8], at: usize) -> Result<usize, Refusal>
    ensures { text_answered result (out.new ∷ []) ≡ number_call n after out.old at }
{
    if is_short(out, at) {
        return Err(Refusal::Buffer);
    }
    Ok(write_number(n, after, out, at))
}
