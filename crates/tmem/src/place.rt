// Where a word goes: the fields that a load takes of its tile, the row's word, the column's halfword, and the list of four.
ghost use Rattle.std.specs.Prelude.{◌≡◌, ◌*◌, ◌%◌, ◌<◌, get_or};
ghost use Rattle.rules.specs.Tile.{bank_words};
ghost use Rattle.rules.specs.Load.{load_tile, image_tile, splits, halfword, base, first_spot, list4};
ghost use Rattle.rdp.specs.View.{tile_of};
ghost use Rattle.tmem.specs.Part.{load_of, column_shift, Spots};

use crate::halfword::Halfword;
use rdp::tile::TileDescriptor;
use rdp::units::{LineWords, WordAddr};

// The four fields that a load takes of its tile.
#[derive(Clone, Copy)]
pub(crate) struct LoadTile {
    pub(crate) fmt: u32,
    pub(crate) siz: u32,
    pub(crate) line: LineWords,
    pub(crate) tmem_addr: WordAddr,
}

impl From<TileDescriptor> for LoadTile {
    ghost from_gives = { λ tile fields. load_of fields ≡ load_tile (tile_of tile) };

    fn from(tile: TileDescriptor) -> LoadTile {
        LoadTile {
            fmt: tile.fmt,
            siz: tile.siz,
            line: tile.line,
            tmem_addr: tile.tmem_addr,
        }
    }
}

impl LoadTile {
    // For image size 0 a block or a tile load takes fmt 0 and siz 0 in place of the tile's.
    pub(crate) fn of_image(self, image_siz: u32) -> LoadTile
        ensures { load_of result ≡ image_tile image_siz (load_of self) }
    {
        if image_siz == 0 {
            return LoadTile {
                fmt: 0,
                siz: 0,
                ..self
            };
        }
        self
    }

    // A word goes to both halves of the bank.
    pub(crate) fn splits(self) -> bool
        ensures { result ≡ splits (load_of self) }
    {
        (self.fmt == 1) | ((self.fmt == 0) & (self.siz == 3))
    }

    // By how many bits a column's number is shifted to its halfword's: the same for all words of a run, so that it is worked out once.
    fn column_shift(self) -> u32
        ensures { result ≡ column_shift (load_of self) }
    {
        match (self.fmt, self.siz) {
            (1, _) | (_, 1) => 1,
            (_, 0) => 2,
            _ => 0,
        }
    }

    // The halfword at which column s starts, in its line.
    pub(crate) fn column_halfword(self, s: usize) -> Halfword
        ensures { result.number ≡ halfword (load_of self) s }
    {
        Halfword {
            number: (s >> self.column_shift()) % Halfword::COUNT,
        }
    }

    // The word at which row t starts: the rule's, wrapped at the bank's end.
    pub(crate) fn row_word(self, t: usize) -> WordAddr
        requires { t < 4096 }
        ensures { result.0 ≡ base (load_of self) t % bank_words }
    {
        self.tmem_addr.row(self.line, t as u32)
    }
}

// The bits of its number that a word's first halfword keeps: all but the second.
const FIRST_MASK: usize = 0x7fd;

// The first of the word's four halfwords.
pub(crate) fn first_halfword(row: WordAddr, column: Halfword) -> Halfword
    ensures { result.number ≡ first_spot row.0 column.number }
{
    Halfword {
        number: (4 * row.0 as usize + column.number) & FIRST_MASK,
    }
}

// The list of four halfwords that a word goes to, by its first one and its odd row's xor.
#[derive(Clone, Copy)]
pub(crate) struct Four {
    pub(crate) first: Halfword,
    pub(crate) odd: usize,
    ghost spots: { Spots first.number odd },
}

impl Four {
    // The halfword at place k: halfword k of the first one's word. Where that starts a halfword late, one place is left over, and is the
    // next word's.
    pub(crate) fn halfword(self, k: usize) -> Halfword
        requires { k < 4 }
        ensures { 2 * (result.number % 1024) ≡ get_or (list4 self.first.number self.odd) k 0 }
    {
        let first = self.first.number;
        let late = (k == self.odd) as usize * (first % 4);
        Halfword {
            number: (first / 4 * 4 + k + 4 * late) % Halfword::COUNT,
        }
    }
}
