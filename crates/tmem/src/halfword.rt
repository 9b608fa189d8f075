// Halfwords of the bank: four to a word, two bytes each.
ghost use Rattle.std.specs.Prelude.{◌≡◌, ◌*◌, ◌%◌, ◌<◌, ◌≤◌};
ghost use Rattle.rules.specs.Tile.{palette_base};
ghost use Rattle.rules.specs.Load.{upper};

use crate::bank::Bank;
use rdp::units::ByteAddr;

// A halfword of the bank, by its number.
#[derive(Clone, Copy)]
pub(crate) struct Halfword {
    pub(crate) number: usize,
    ghost in_bank: { number < 2048 },
}

impl Halfword {
    // The halfwords of a bank.
    pub(crate) const COUNT: usize = Bank::SIZE / 2;

    // The halfwords of the lower half, and the bit that those of the upper half have.
    const HALF: usize = Bank::PALETTE_BASE / 2;

    // The byte at which it starts, taken into the lower half.
    pub(crate) fn lower_byte(self) -> ByteAddr
        ensures { result.0 ≡ 2 * (self.number % 1024) }
    {
        ByteAddr(2 * self.number & Bank::MASK16)
    }

    // The byte at which its half of the bank starts.
    pub(crate) fn half_start(self) -> ByteAddr
        ensures result_value { result.0 ≡ upper self.number }
        ensures result_le_palette_base { result.0 ≤ palette_base }
    {
        ByteAddr(2 * (self.number & Halfword::HALF))
    }
}
