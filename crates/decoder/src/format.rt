// The formats of texels without a lookup table, and the reads of a texel.
ghost use Rattle.std.specs.Prelude.{◌≡◌, true, ◌+◌, ◌*◌, ◌≤◌};
ghost use Rattle.rules.specs.Texdec.{format_of, known, same4, nibble, ia8_texel};
ghost use Rattle.rules.specs.Picture.{format_reads, reads_each};
ghost use Rattle.rdp.specs.View.{tile_of};
ghost use Rattle.decoder.specs.Formats.{rule_of, halved, of_byte, of_pair};

use crate::load::entry_of;
use rdp::tile::TileDescriptor;
use texdec::entry::{decode_ci16_entry, decode_ia16_entry, decode_rgba16_entry};
use texdec::nibble::{decode_i4, decode_ia4, nibble};
use texdec::pair::Picture;

// The formats that the texel step knows. An index of 16 bits has two sizes.
#[derive(Clone, Copy)]
pub(crate) enum Format {
    Rgba16,
    Rgba32,
    Ci4,
    Ci8,
    Ci16,
    Ia4,
    Ia8,
    Ia16,
    I4,
    I8,
}

impl Format {
    // The format of a tile whose pair the step knows, by 4 times the pair's format and its size.
    pub(crate) fn of_tile(tile: TileDescriptor) -> Format
        requires in_range { ((tile_of tile).fmt ≤ 7) × ((tile_of tile).siz ≤ 3) }
        requires knows { known (format_of (tile_of tile).fmt (tile_of tile).siz) ≡ true }
        ensures { rule_of result ≡ format_of (tile_of tile).fmt (tile_of tile).siz }
    {
        let place = 4 * tile.fmt + tile.siz;
        match place {
            2 => Format::Rgba16,
            3 => Format::Rgba32,
            8 => Format::Ci4,
            9 => Format::Ci8,
            10 => Format::Ci16,
            11 => Format::Ci16,
            12 => Format::Ia4,
            13 => Format::Ia8,
            14 => Format::Ia16,
            16 => Format::I4,
            _ => Format::I8,
        }
    }

    // The reads of a texel.
    #[inline(always)]
    pub(crate) fn reads(self) -> usize
        ensures value { result ≡ format_reads (rule_of self) }
        ensures upper_bound { result ≤ 4 }
    {
        match self {
            Format::Rgba16 => 2,
            Format::Rgba32 => 4,
            Format::Ci16 => 2,
            Format::Ia16 => 2,
            _ => 1,
        }
    }

    // Two texels share a byte.
    #[inline(always)]
    pub(crate) fn halved(self) -> bool
        ensures { result ≡ halved (rule_of self) }
    {
        match self {
            Format::Ci4 => true,
            Format::Ia4 => true,
            Format::I4 => true,
            _ => false,
        }
    }

    // The channels of a texel of one byte: an index of 4 bits, IA4, IA8, I4, or, of 8 bits, an index or I8.
    #[inline(always)]
    pub(crate) fn of_byte(self, palette: u32, x: usize, byte: u8) -> [u8; 4]
        requires { palette ≤ 15 }
        ensures { result ≡ of_byte (rule_of self) palette x byte }
    {
        match self {
            Format::Ci4 => ci4_texel(palette, x, byte),
            Format::Ia4 => decode_ia4(x, byte),
            Format::Ia8 => ia8_texel(byte),
            Format::I4 => decode_i4(x, byte),
            _ => [byte, byte, byte, byte],
        }
    }

    // The channels of a texel of two bytes, the high one first: RGBA16, IA16, or an index of 16 bits.
    #[inline(always)]
    pub(crate) fn of_pair(self, hi: u8, lo: u8) -> [u8; 4]
        ensures { result ≡ of_pair (rule_of self) hi lo }
    {
        match self {
            Format::Rgba16 => decode_rgba16_entry(entry_of(hi, lo)),
            Format::Ia16 => decode_ia16_entry(entry_of(hi, lo)),
            _ => decode_ci16_entry(hi, lo),
        }
    }
}

// The index that a nibble stands for, in all channels.
#[inline(always)]
fn ci4_texel(palette: u32, x: usize, byte: u8) -> [u8; 4]
    requires { palette ≤ 15 }
    ensures { result ≡ same4 (palette * 16 + nibble x byte) }
{
    let i = palette as u8 * 16 + nibble(x, byte);
    [i, i, i, i]
}

// The IA8 texel of a byte: its nibbles are those of two I4 texels.
#[inline(always)]
fn ia8_texel(byte: u8) -> [u8; 4]
    ensures { result ≡ ia8_texel byte }
{
    let i = decode_i4(0, byte);
    let a = decode_i4(1, byte);
    [i[0], i[0], i[0], a[0]]
}

// The reads of a texel of a picture.
pub(crate) fn tile_reads(picture: Picture) -> usize
    ensures value { result ≡ reads_each (tile_of picture.tile) picture.tlut }
    ensures upper_bound { result ≤ 4 }
{
    if 2 <= picture.tlut {
        return 3;
    }
    Format::of_tile(picture.tile).reads()
}
