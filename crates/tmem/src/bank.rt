// The bank by value, with its numbers as associated constants, its fresh value, and the places of its palette.
ghost use Rattle.std.specs.Prelude.{◌≡◌};
ghost use Rattle.rules.specs.Picture.{entry_at};
ghost use Rattle.rules.specs.Tile.{bank_size, written_size, reasons_size, palette_base, mask8, mask16, fresh_bank};

use rdp::units::ByteAddr;

// Texture memory.
#[derive(Drop)]
pub struct Bank {
    pub bytes: [u8; Bank::SIZE],
}

impl Bank {
    // The bytes of a bank.
    pub const SIZE: usize = 4096;

    // The bytes of the written map: two for each byte of the bank.
    pub const WRITTEN_SIZE: usize = 8192;

    // The bytes of the map of reasons: one for each byte of the bank.
    pub const REASONS_SIZE: usize = Bank::SIZE;

    // The byte at which the palette starts.
    pub const PALETTE_BASE: usize = 0x800;

    // The mask of a byte address of the whole bank.
    pub const MASK8: usize = 0xfff;

    // The mask of a byte address of the lower half.
    pub const MASK16: usize = 0x7ff;

    // The sizes are the rules' numbers.
    pub(crate) fn numbers()
        ensures size { Bank.SIZE ≡ bank_size }
        ensures written_size { Bank.WRITTEN_SIZE ≡ written_size }
        ensures reasons_size { Bank.REASONS_SIZE ≡ reasons_size }
        ensures palette_base { Bank.PALETTE_BASE ≡ palette_base }
    {}

    // So are the masks.
    pub(crate) fn masks()
        ensures mask8 { Bank.MASK8 ≡ mask8 }
        ensures mask16 { Bank.MASK16 ≡ mask16 }
    {}

    // All zero.
    pub fn fresh() -> Bank
        ensures { result.bytes ≡ fresh_bank }
    {
        Bank {
            bytes: [0u8; Bank::SIZE],
        }
    }

    // Where an entry of the palette starts, in a lane: an entry is four lanes of two bytes.
    pub fn entry_addr(index: u8, lane: u32) -> ByteAddr
        ensures { result.0 ≡ entry_at index lane }
    {
        ByteAddr(Bank::PALETTE_BASE + 8 * index as usize + 2 * lane as usize)
    }
}
