// The hardware's load of a lookup table, which replicates a pair of bytes over a word's lanes.
ghost use Rattle.std.specs.Prelude.{◌≡◌, ◌≤◌};
ghost use Rattle.rules.specs.Load.{entries, advance, steps, hardware_stores};
ghost use Rattle.tmem.specs.Part.{load_of, Counted};

use crate::memory::Memory;
use crate::place::LoadTile;
use crate::tally::Tally;
use crate::words::{Run, write_words};

// The hardware load's numbers, which are in their ranges.
#[derive(Clone, Copy)]
pub(crate) struct HardwareLoad {
    pub(crate) image_siz: u32,
    pub(crate) count: usize,
    ghost image_in: { image_siz ≤ 3 },
    ghost count_in: { count ≤ 1024 },
}

impl HardwareLoad {
    // The entries that a step covers.
    fn entries(self) -> usize
        ensures { result ≡ entries self.image_siz }
    {
        match self.image_siz {
            2 => 1,
            siz => 16 >> siz,
        }
    }

    // The steps.
    fn steps(self) -> usize
        ensures { result ≡ steps self.image_siz self.count }
    {
        let entries = self.entries();
        (self.count + (entries - 1)) / entries
    }

    // The source bytes that a step advances.
    fn advance(self) -> usize
        ensures { result ≡ advance self.image_siz }
    {
        match self.image_siz {
            2 => 2,
            _ => 8,
        }
    }

    // A word for each step; it answers its tally of stores.
    pub(crate) fn write(self, memory: &mut Memory, src: &[u8], tile: LoadTile) -> Tally
        ensures { Counted src.now (hardware_stores (load_of tile) self.image_siz self.count) memory.old memory.new result }
    {
        let run = Run {
            columns: 64usize >> self.image_siz,
            row: 0,
            dxt: 0,
            place: 0,
            advance: self.advance(),
            replicate: true,
        };
        let steps = self.steps();
        write_words(memory, src, tile, run, steps)
    }
}
