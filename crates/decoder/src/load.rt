// Where a texel is read, and the reads of the bank, each with the address that it goes to.
ghost use Rattle.std.specs.Prelude.{◌≡◌, ◌+◌, ◌<◌, ◌≤◌, get_or};
ghost use Rattle.std.specs.Int.Bits.{bit_and};
ghost use Rattle.rules.specs.Texdec.{entry_of};
ghost use Rattle.rules.specs.Picture.{swap_odd, address};
ghost use Rattle.rules.specs.Tile.{bank_size, palette_base};
ghost use Rattle.decoder.specs.Steps.{load_at};

use rdp::units::{ByteAddr, swap_odd_line};
use tmem::bank::Bank;

// A byte and its address, wrapped: a place of the bank.
#[derive(Clone, Copy)]
pub(crate) struct Load {
    pub(crate) at: usize,
    pub(crate) byte: u8,
}

// A texel's place: rel from the tile's base, on an odd row or not, in column x; and the tile's palette.
#[derive(Clone, Copy)]
pub(crate) struct Spot {
    pub(crate) base: ByteAddr,
    pub(crate) palette: u32,
    pub(crate) odd: bool,
    pub(crate) rel: u32,
    pub(crate) x: usize,
    pub(crate) ghost base_bound: { base.0 ≤ 4088 },
    pub(crate) ghost palette_bound: { palette ≤ 15 },
}

impl Spot {
    // Where the byte so many behind the texel's first stands, masked.
    #[inline(always)]
    pub(crate) fn address(self, more: usize, mask: usize) -> usize
        requires { more ≤ 1 }
        ensures { result ≡ bit_and (self.base.0 + swap_odd self.odd (self.rel + more)) mask }
    {
        (self.base.0 + swap_odd_line(self.rel as usize + more, self.odd)) & mask
    }

    // That byte, in the whole bank.
    #[inline(always)]
    pub(crate) fn load(self, bank: &[u8; Bank::SIZE], more: usize) -> Load
        requires { more ≤ 1 }
        ensures { result ≡ load_at bank.now (address bank_size self.base.0 self.odd (self.rel + more)) }
    {
        let at = self.address(more, Bank::MASK8);
        Load { at, byte: bank[at] }
    }

    // That byte in the low half of the bank, or, with `up` the palette's base, at the same place of the high half.
    #[inline(always)]
    pub(crate) fn load_half(self, bank: &[u8; Bank::SIZE], more: usize, up: usize) -> Load
        requires more_bound { more ≤ 1 }
        requires up_bound { up ≤ palette_base }
        ensures { result ≡ load_at bank.now (address palette_base self.base.0 self.odd (self.rel + more) + up) }
    {
        let at = self.address(more, Bank::MASK16) + up;
        Load { at, byte: bank[at] }
    }
}

// Two bytes, the high one first, as one entry. Not by `from_be_bytes`: the compiler then turns the two about and back, which took
// seven more instructions a texel of IA16.
#[inline(always)]
pub(crate) fn entry_of(hi: u8, lo: u8) -> u16
    ensures { result ≡ entry_of hi lo }
{
    hi as u16 * 256 + lo as u16
}
