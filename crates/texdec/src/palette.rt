// The entry of the lookup table that a byte of a texel stands for.
ghost use Rattle.std.specs.Prelude.{◌≡◌};
ghost use Rattle.rules.specs.Texdec.{nibble, index_part, part_index};

use crate::nibble::nibble;

// The part of its byte that a tile's index is: the whole of it, the nibble that x takes, or, for format 1, the high nibble.
// They are numbers, since `palette_index` answers for every number, as `part_index` does. Pairs of format and size have the numbers
// below 32 (4 times format, and size), so that no part is taken for a pair.
pub const WHOLE_BYTE: u32 = 32;

pub const NIBBLE: u32 = 33;

pub const HIGH_NIBBLE: u32 = 34;

// Size 0 has two indices to a byte; format 1 takes the high nibble in every column.
pub fn index_part(fmt: u32, siz: u32) -> u32
    ensures { result ≡ index_part fmt siz }
{
    if siz != 0 {
        return WHOLE_BYTE;
    }
    if fmt == 1 { HIGH_NIBBLE } else { NIBBLE }
}

// The nibble of a byte that x takes, as part of an index. The byte is made wide before the nibble is chosen: made wide after that, as
// with `nibble`, each texel of a picture of nibbles took three instructions more.
fn index_nibble(x: usize, byte: u8) -> usize
    ensures { result ≡ nibble x byte }
{
    let wide = byte as usize;
    if x % 2 == 0 { wide >> 4 } else { wide % 16 }
}

// The byte itself, or the tile's palette and the nibble.
pub fn palette_index(part: u32, palette: u32, x: usize, byte: u8) -> usize
    ensures { result ≡ part_index part palette x byte }
{
    match part {
        WHOLE_BYTE => byte as usize,
        NIBBLE => palette as usize * 16 + index_nibble(x, byte),
        _ => palette as usize * 16 + nibble(0, byte) as usize,
    }
}
