// A block load: words one after the other, whose row advances by dxt.
ghost use Rattle.std.specs.Prelude.{◌≡◌, false, ◌≤◌};
ghost use Rattle.rules.specs.Calls.{block_outside};
ghost use Rattle.rules.specs.Load.{block_stores};
ghost use Rattle.tmem.specs.Part.{load_of, Counted};

use crate::memory::Memory;
use crate::place::LoadTile;
use crate::tally::Tally;
use crate::words::{Run, write_words};

// A block's numbers, which are in their ranges.
#[derive(Clone, Copy)]
pub(crate) struct BlockLoad {
    pub(crate) image_siz: u32,
    pub(crate) dxt: usize,
    pub(crate) words: usize,
    ghost image_in: { image_siz ≤ 3 },
    ghost in_range: { block_outside dxt words ≡ false },
}

impl BlockLoad {
    // The words; it answers its tally of stores.
    pub(crate) fn write(self, memory: &mut Memory, src: &[u8], tile: LoadTile) -> Tally
        ensures { Counted src.now (block_stores (load_of tile) self.image_siz self.dxt self.words) memory.old memory.new result }
    {
        let image = tile.of_image(self.image_siz);
        let run = Run::of_image(self.image_siz, 0, self.dxt, 0);
        write_words(memory, src, image, run, self.words)
    }
}
