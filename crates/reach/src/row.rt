// The rows of a tile as spans.
ghost use Rattle.std.specs.Prelude.{◌≡◌, ◌<◌, ◌≤◌};
ghost use Rattle.rules.specs.Reach.{row_bytes};
ghost use Rattle.rdp.specs.View.{tile_of};
ghost use Rattle.rules.specs.Tile.{bank_size, bank_words};

use crate::extent;
use crate::span::{Part, Span};
use crate::tile::TileInMode;

// The rows of a tile, and the bytes that each has.
#[derive(Clone, Copy)]
pub(crate) struct Rows {
    pub(crate) asked: TileInMode,
    pub(crate) bytes: u32,
    ghost value: { bytes ≡ row_bytes (tile_of asked.tile) },
}

impl Rows {
    ghost use Rattle.rules.specs.Reach.{reach_rows, reach_row};
    ghost use Rattle.reach.specs.Span.{reached, row_span};

    // Those of a tile.
    pub(crate) fn of(asked: TileInMode) -> Rows
        ensures { result.asked ≡ asked }
    {
        Rows {
            asked,
            bytes: extent::row_bytes(asked) as u32,
        }
    }

    // How many of them the tile reaches.
    pub(crate) fn count(self) -> usize
        ensures { (result ≡ reach_rows (tile_of self.asked.tile)) × (result ≤ bank_size) }
    {
        extent::reach_rows(self.asked)
    }

    // How many words one row starts after the other.
    pub(crate) fn line(self) -> usize
        ensures { (result ≡ self.asked.tile.line.0) × (result < bank_words) }
    {
        self.asked.tile.line.0 as usize
    }

    // Row y.
    pub(crate) fn row(self, y: usize) -> Span
        requires { y < bank_size }
        ensures result_value { reached result ≡ reach_row (tile_of self.asked.tile) self.asked.tlut y }
        ensures value { result ≡ row_span (tile_of self.asked.tile) self.asked.tlut y }
    {
        let tile = self.asked.tile;
        Span {
            first: tile.tmem_addr.row(tile.line, y as u32),
            bytes: self.bytes,
            odd: y % 2 == 1,
            sparse: (2 <= self.asked.tlut) & (2 <= tile.siz),
            part: Part::of(self.asked),
        }
    }
}
