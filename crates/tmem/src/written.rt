// The written record: the lent map of numbers, which is itself lent to the one function that stores them.
ghost use Rattle.std.specs.Prelude.{◌≡◌, [], ◌∷◌, ◌/◌, ◌%◌, ◌<◌};
ghost use Rattle.rules.specs.Tile.{bank_size};
ghost use Rattle.tmem.specs.Marks.{marked_in};

use crate::bank::Bank;
use rdp::units::ByteAddr;

// What is written, by the map that it borrows.
#[derive(Drop)]
pub(crate) struct Written<'a> {
    pub(crate) map: &'a mut [u8; Bank::WRITTEN_SIZE],
}

// A number at a halfword's two addresses: two bytes each, big end first.
fn marks(number: u16) -> [u8; 4]
    ensures { result ≡ number / 256 ∷ number % 256 ∷ number / 256 ∷ number % 256 ∷ [] }
{
    let [high, low] = number.to_be_bytes();
    [high, low, high, low]
}

// The record is updated: a halfword's two addresses, of which the first is even, have the number.
pub(crate) fn mark(w: &mut Written, at: ByteAddr, number: u16)
    requires { (at.0 < bank_size) × (at.0 % 2 ≡ 0) }
    ensures { w.new ≡ marked_in w.old at.0 number }
{
    let map = &mut *w.map;
    let start = 2 * at.0;
    map[start..start + 4].copy_from_slice(&marks(number));
}
