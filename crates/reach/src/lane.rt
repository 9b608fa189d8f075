// The lane check: which slots of the palette do not have one pair of bytes four times.
ghost use Rattle.std.specs.Prelude.{cond, [], ◌∷◌, ◌≡◌, ◌<◌, length, OnOk};
ghost use Rattle.rules.specs.Calls.{lane_tests, lane_call};
ghost use Rattle.rules.specs.Reach.{pair_differs, uneven, lane_map};
ghost use Rattle.rules.specs.Refusal.{first};
ghost use Rattle.rules.specs.Tile.{bank_size, lane_map_size};
ghost use Rattle.rdp.specs.Refused.{refusal_of};
ghost use Rattle.rdp.specs.View.{refusal_answered};
ghost use Rattle.reach.specs.Slots.{slots_byte};

use rdp::refusal::{Refusal, refuse};
use tmem::bank::Bank;

// The bytes of a lane map: a bit for each slot, and a slot is eight bytes of the palette.
const MAP_SIZE: usize = (Bank::SIZE - Bank::PALETTE_BASE) / 64;

// Pair p of slot j differs from the slot's first. Both are compared where they stand.
fn pair_differs(bank: &[u8; Bank::SIZE], j: usize, p: usize) -> bool
    requires { (j < 256) × (p < 4) }
    ensures { result ≡ pair_differs bank.now j p }
{
    let first = Bank::PALETTE_BASE + 8 * j;
    let at = first + 2 * p;
    u16::from_le_bytes([bank[at], bank[at + 1]])
        != u16::from_le_bytes([bank[first], bank[first + 1]])
}

// The byte of a map after slot j: marked where the slot's pairs are not all one, else as it was. The slot is left at the first
// pair that differs. (With a yes or no for each slot the x86-64 code held eight answers, and saved registers on the stack for them.)
fn after_slot(bank: &[u8; Bank::SIZE], j: usize, marked: u8, bits: u8) -> u8
    requires { j < 256 }
    ensures { result ≡ cond (uneven bank.now j) marked bits }
{
    if pair_differs(bank, j, 1) {
        return marked;
    }
    if pair_differs(bank, j, 2) {
        return marked;
    }
    if pair_differs(bank, j, 3) {
        return marked;
    }
    bits
}

// Byte i of the lane map: a bit for each of eight slots. (A fold would have the same two lines in a closure, and be no plainer.)
fn slots_byte(bank: &[u8; Bank::SIZE], i: usize) -> u8
    requires { i < lane_map_size }
    ensures { result ≡ slots_byte bank.now i }
{
    let mut bits = 0u8;
    for k in 0..8 {
        let marked = bits | 1u8 << k;
        bits = after_slot(bank, 8 * i + k, marked, bits);
    }
    bits
}

// Every byte of the map is written.
fn write_lanes(bank: &[u8; Bank::SIZE], map: &mut [u8; MAP_SIZE])
    ensures { map.new ≡ lane_map bank.now }
{
    for (i, byte) in map.iter_mut().enumerate() {
        *byte = slots_byte(bank, i);
    }
}

// The refusal of the lane check: a bank or a map of another length.
fn check_lane(bank: &[u8], map: &[u8]) -> Result<(), Refusal>
    ensures refusal { refusal_of result ≡ first (lane_tests bank.now map.now) }
    ensures checked { OnOk result ((length bank.now ≡ bank_size) × (length map.now ≡ lane_map_size)) }
{
    refuse(Refusal::Length, bank.len() != Bank::SIZE)?;
    refuse(Refusal::Length, map.len() != MAP_SIZE)
}

// The lane map of a bank, overwritten whole, or the refusal with the map as it was lent.
pub fn palette_nonreplicated_bytes(bank: &[u8], map: &mut [u8]) -> Result<(), Refusal>
    ensures { refusal_answered result (map.new ∷ []) ≡ lane_call bank.now map.old }
{
    check_lane(bank, map)?;
    write_lanes(bank.try_into().unwrap(), map.as_mut_array().unwrap());
    Ok(())
}
