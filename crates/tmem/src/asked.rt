// What a load is asked for: a block, a tile or one of the two loads of a lookup table, with the numbers that are its own.
ghost use Rattle.std.specs.Prelude.{◌≡◌, false, ◌≤◌};
ghost use Rattle.rules.specs.Calls.{hardware_outside};
ghost use Rattle.tmem.specs.Part.{load_of, Counted};
ghost use Rattle.tmem.specs.Asked.{asked_outside, asked_stores, picked};

use crate::entries::RowsLoad;
use crate::load_block::BlockLoad;
use crate::load_tile::TileLoad;
use crate::load_tlut::HardwareLoad;
use crate::memory::Memory;
use crate::place::LoadTile;
use crate::tally::Tally;

#[derive(Clone, Copy)]
pub enum Asked {
    // Words one after the other, whose row advances by dxt 2,048ths a word.
    Block {
        dxt: usize,
        words: usize,
    },
    // Rows of words, which stand `stride` bytes apart in the source.
    Tile {
        rows: usize,
        words: usize,
        stride: usize,
    },
    // One row of `count` entries, by the hardware's load; the stride has no use.
    TlutHardware {
        count: usize,
        rows: usize,
        stride: usize,
    },
    // Rows of `count` entries each: the defined extension.
    TlutRows {
        count: usize,
        rows: usize,
        stride: usize,
    },
}

// A number of a hardware load is outside its range.
fn hardware_outside(image_siz: u32, count: usize, rows: usize, stride: usize) -> bool
    ensures { result ≡ hardware_outside image_siz count rows stride }
{
    (image_siz == 0) | (1024 < count) | (rows != 1) | (65535 < stride)
}

impl Asked {
    // A lookup table, as document 01's rule picks its load: by the hardware for one row of an image above size 0, else by rows.
    pub fn tlut(image_siz: u32, count: usize, rows: usize, stride: usize) -> Asked
        ensures { result ≡ picked image_siz count rows stride }
    {
        if (rows == 1) & (0 < image_siz) {
            return Asked::TlutHardware {
                count,
                rows,
                stride,
            };
        }
        Asked::TlutRows {
            count,
            rows,
            stride,
        }
    }

    // One of its numbers is outside its range, for an image of a size that is not above 3.
    pub(crate) fn outside(self, image_siz: u32) -> bool
        ensures { result ≡ asked_outside image_siz self }
    {
        match self {
            Asked::Block { dxt, words } => (4095 < dxt) | (2048 < words),
            Asked::Tile {
                rows,
                words,
                stride,
            } => (1024 < rows) | (512 < words) | (65535 < stride),
            Asked::TlutHardware {
                count,
                rows,
                stride,
            } => hardware_outside(image_siz, count, rows, stride),
            Asked::TlutRows {
                count,
                rows,
                stride,
            } => (1024 < count) | (rows == 0) | (1024 < rows) | (65535 < stride),
        }
    }

    // It is carried out; its tally of stores is answered.
    pub(crate) fn write(
        self,
        memory: &mut Memory,
        src: &[u8],
        tile: LoadTile,
        image_siz: u32,
    ) -> Tally
        requires image_siz_bound { image_siz ≤ 3 }
        requires self_value { asked_outside image_siz self ≡ false }
        ensures { Counted src.now (asked_stores (load_of tile) image_siz self) memory.old memory.new result }
    {
        match self {
            Asked::Block { dxt, words } => {
                let load = BlockLoad {
                    image_siz,
                    dxt,
                    words,
                };
                load.write(memory, src, tile)
            }
            Asked::Tile {
                rows,
                words,
                stride,
            } => {
                let load = TileLoad {
                    image_siz,
                    rows,
                    words,
                    stride,
                };
                load.write(memory, src, tile)
            }
            Asked::TlutHardware { count, .. } => {
                let load = HardwareLoad { image_siz, count };
                load.write(memory, src, tile)
            }
            Asked::TlutRows {
                count,
                rows,
                stride,
            } => {
                let load = RowsLoad {
                    count,
                    rows,
                    stride,
                };
                load.write(memory, src, tile)
            }
        }
    }
}
