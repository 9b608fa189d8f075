// The numbers of a record, big end first. Past a record's end every byte is read as zero.
ghost use Rattle.std.specs.Prelude.{◌≡◌, ℕ, ◌+◌, ◌^◌, ◌<◌, get_or};
ghost use Rattle.rules.specs.Lister.{byte, two};
ghost use Rattle.rules.specs.Replay.{four};

use std::array;

// The N bytes from k on.
fn bytes_at<const N: usize>(bytes: &[u8], k: u32) -> [u8; N]
    requires { N < 2 ^ 32 }
    ensures { (i : ℕ) → i < N → get_or result i 0 ≡ byte bytes.now (k + i) }
{
    array::from_fn(|i| bytes.get(k as usize + i).copied().unwrap_or(0))
}

// A byte.
pub fn byte_at(bytes: &[u8], k: u32) -> u32
    ensures { result ≡ byte bytes.now k }
{
    u8::from_be_bytes(bytes_at(bytes, k)) as u32
}

// Two bytes.
pub fn two_at(bytes: &[u8], k: u32) -> u32
    ensures { result ≡ two bytes.now k }
{
    u16::from_be_bytes(bytes_at(bytes, k)) as u32
}

// Four bytes.
pub fn four_at(bytes: &[u8], k: u32) -> u32
    ensures { result ≡ four bytes.now k }
{
    u32::from_be_bytes(bytes_at(bytes, k))
}
