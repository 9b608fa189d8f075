// A case's line: the name in 32 places, a letter for what is run, and columns of six places each. The first twelve are the tile
// and the mode, in the order of the lister's record; the others are the call's own.
ghost use Rattle.std.specs.Prelude.{◌<◌, ◌≤◌, length};

use rdp::tile::TileDescriptor;
use rdp::units::{LineWords, WordAddr};

const NAME: usize = 32;

const COLUMNS: usize = 26;

const COLUMN: usize = 6;

// A line's bytes, with its end.
const LENGTH: usize = NAME + 1 + COLUMNS * COLUMN + 1;

// The first of the call's own columns.
pub(crate) const OWN: usize = 12;

#[derive(Clone, Copy)]
pub(crate) struct Line {
    pub(crate) bytes: [u8; LENGTH],
}

impl Line {
    // A line that is to be read.
    pub(crate) fn blank() -> Line {
        Line {
            bytes: [b' '; LENGTH],
        }
    }

    // The name, up to its last byte that is not blank.
    pub(crate) fn name(&self) -> &[u8]
        ensures { length result.now ≤ 32 }
    {
        let name = &self.bytes[..NAME];
        let last = name.iter().rposition(|byte| *byte != b' ');
        &name[..last.map_or(0, |last| last + 1)]
    }

    pub(crate) fn letter(&self) -> u8 {
        self.bytes[NAME]
    }

    // The number of a column, in its last five places. A blank is 0.
    pub(crate) fn number(&self, column: usize) -> u32
        requires { column < 26 }
    {
        let at = NAME + 2 + COLUMN * column;
        let mut number = 0u32;
        for digit in &self.bytes[at..at + 5] {
            number = number.wrapping_mul(10).wrapping_add(*digit as u32 % 16);
        }
        number
    }

    // A length that a column asks for, as far as there is room.
    pub(crate) fn part(&self, column: usize, room: usize) -> usize
        requires { column < 26 }
        ensures { result ≤ room }
    {
        (self.number(column) as usize).min(room)
    }

    pub(crate) fn tile(&self) -> TileDescriptor {
        TileDescriptor {
            fmt: self.number(0),
            siz: self.number(1),
            palette: self.number(2),
            cms: self.number(4),
            cmt: self.number(5),
            masks: self.number(6),
            maskt: self.number(7),
            line: LineWords(self.number(8)),
            tmem_addr: WordAddr(self.number(9)),
            width: self.number(10),
            height: self.number(11),
        }
    }

    pub(crate) fn mode(&self) -> u32 {
        self.number(3)
    }
}
