// What a load writes, and the two stores of a halfword there. Every store of a load is one of such two.
ghost use Rattle.std.specs.Prelude.{◌≡◌, ◌%◌, ◌<◌, get_or};
ghost use Rattle.rules.specs.Tile.{bank_size};
ghost use Rattle.tmem.specs.Part.{half_stores, bytes_in, Carried};

use crate::bank::Bank;
use crate::written::{Written, mark};
use rdp::units::ByteAddr;

// What a load leaves at each address beside its byte: its number, and its reason, which is 0 for an ordinary load.
#[derive(Clone, Copy)]
pub(crate) struct Label {
    pub(crate) number: u16,
    pub(crate) reason: u8,
}

// Byte k of a word. By a shift: by `to_le_bytes` the compiler made all eight bytes of a word before it chose where they go, and had no
// room to keep them at hand.
fn byte_of(word: u64, k: usize) -> u8
    requires { k < 8 }
    ensures { result ≡ get_or (bytes_in word) k 0 }
{
    ((word >> 8 * k as u32) % 256) as u8
}

// Bank, written map and reasons, as they are lent, and the load's label.
#[derive(Drop)]
pub(crate) struct Memory<'a> {
    pub(crate) bank: &'a mut [u8; Bank::SIZE],
    pub(crate) written: &'a mut [u8; Bank::WRITTEN_SIZE],
    pub(crate) reasons: &'a mut [u8; Bank::REASONS_SIZE],
    pub(crate) label: Label,
}

impl Memory<'_> {
    // The two stores of a halfword, at an even address: bytes k and next_k of a word. They leave number and reason at both of its
    // addresses.
    pub(crate) fn store_pair(&mut self, word: u64, at: ByteAddr, k: usize, next_k: usize)
        requires at_lt_bank_size { (at.0 < bank_size) × (at.0 % 2 ≡ 0) }
        requires k_bound { (k < 8) × (next_k < 8) }
        ensures { Carried (bytes_in word) (half_stores at.0 k next_k) self.old self.new }
    {
        let i = at.0;
        self.bank[i] = byte_of(word, k);
        self.bank[i + 1] = byte_of(word, next_k);
        self.reasons[i] = self.label.reason;
        self.reasons[i + 1] = self.label.reason;
        let map = &mut *self.written;
        mark(&mut Written { map }, at, self.label.number);
    }
}
