// The part of its byte that an index of the lookup table is.
ghost use Rattle.std.specs.Prelude.{◌≡◌};
ghost use Rattle.rules.specs.Texdec.{index_part, part_index};
ghost use Rattle.rdp.specs.View.{tile_of};
ghost use Rattle.decoder.specs.Formats.{part_number};

use rdp::tile::TileDescriptor;
use texdec::palette::palette_index;

// With the rules' numbers: the whole of the byte, the nibble that x takes, or, for format 1, the high nibble.
#[derive(Clone, Copy)]
pub(crate) enum Part {
    WholeByte = 32,
    Nibble = 33,
    HighNibble = 34,
}

impl Part {
    // The part that a tile's index is. Size 0 has two indices to a byte.
    pub(crate) fn of_tile(tile: TileDescriptor) -> Part
        ensures { part_number result ≡ index_part (tile_of tile).fmt (tile_of tile).siz }
    {
        if tile.siz != 0 {
            return Part::WholeByte;
        }
        if tile.fmt == 1 {
            Part::HighNibble
        } else {
            Part::Nibble
        }
    }

    // The index that the part of a byte stands for.
    #[inline(always)]
    pub(crate) fn index(self, palette: u32, x: usize, byte: u8) -> usize
        ensures { result ≡ part_index (part_number self) palette x byte }
    {
        palette_index(self as u32, palette, x, byte)
    }
}
