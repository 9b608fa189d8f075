// A tile load: rows of words, each from its own place of the source.
ghost use Rattle.std.specs.Prelude.{◌≡◌, false, ◌<◌, ◌≤◌};
ghost use Rattle.rules.specs.Calls.{tile_load_outside};
ghost use Rattle.rules.specs.Load.{tile_row, tile_stores};
ghost use Rattle.tmem.specs.Part.{load_of, Counted};

use crate::memory::Memory;
use crate::place::LoadTile;
use crate::tally::Tally;
use crate::words::{Run, write_words};

// A tile load's numbers, which are in their ranges.
#[derive(Clone, Copy)]
pub(crate) struct TileLoad {
    pub(crate) image_siz: u32,
    pub(crate) rows: usize,
    pub(crate) words: usize,
    pub(crate) stride: usize,
    ghost image_in: { image_siz ≤ 3 },
    ghost in_range: { tile_load_outside rows words stride ≡ false },
}

impl TileLoad {
    // The words of a row; it answers its tally of stores.
    fn write_row(self, memory: &mut Memory, src: &[u8], tile: LoadTile, row: usize) -> Tally
        requires { row < self.rows }
        ensures { Counted src.now (tile_row (load_of tile) self.image_siz self.words self.stride row) memory.old memory.new result }
    {
        let image = tile.of_image(self.image_siz);
        let run = Run::of_image(self.image_siz, row, 0, row * self.stride);
        write_words(memory, src, image, run, self.words)
    }

    // The rows; it answers its tally of stores.
    pub(crate) fn write(self, memory: &mut Memory, src: &[u8], tile: LoadTile) -> Tally
        ensures { Counted src.now (tile_stores (load_of tile) self.image_siz self.rows self.words self.stride)
            memory.old memory.new result }
    {
        let mut tally = Tally::none();
        for row in 0..self.rows {
            let more = self.write_row(memory, src, tile, row);
            tally = tally.plus(more);
        }
        tally
    }
}
