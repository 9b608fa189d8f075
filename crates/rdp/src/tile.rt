// The tile record, with the names of rdp.rs. Its numbers arrive wide, so that one past its range is refused and never
// wrapped.
ghost use Rattle.std.specs.Prelude.{◌≡◌};
ghost use Rattle.rules.specs.Calls.{sampling_tests};
ghost use Rattle.rules.specs.Picture.{column, row_start};
ghost use Rattle.rules.specs.Refusal.{first};
ghost use Rattle.rules.specs.Tile.{load_fields_outside, sides_outside, tile_outside, mode_outside, lane_outside};
ghost use Rattle.rdp.specs.Refused.{refusal_of};
ghost use Rattle.rdp.specs.View.{tile_of};

use crate::refusal::{Refusal, refuse};
use crate::units::{LineWords, WordAddr};

// The largest width and height.
const SIDE_MOST: u32 = 4096;

#[derive(Clone, Copy)]
pub struct TileDescriptor {
    pub fmt: u32,
    pub siz: u32,
    pub palette: u32,
    pub cms: u32,
    pub cmt: u32,
    pub masks: u32,
    pub maskt: u32,
    pub line: LineWords,
    pub tmem_addr: WordAddr,
    pub width: u32,
    pub height: u32,
}

impl TileDescriptor {
    // One of the four fields that a load takes is outside its range.
    pub fn load_fields_outside(self) -> bool
        ensures { result ≡ load_fields_outside (tile_of self) }
    {
        (7 < self.fmt) | (3 < self.siz) | (511 < self.line.0) | (511 < self.tmem_addr.0)
    }

    // A field is outside its range.
    pub fn outside(self) -> bool
        ensures { result ≡ tile_outside (tile_of self) }
    {
        self.load_fields_outside()
            | (15 < self.palette)
            | (3 < self.cms)
            | (3 < self.cmt)
            | (15 < self.masks)
            | (15 < self.maskt)
            | (SIDE_MOST < self.width)
            | (SIDE_MOST < self.height)
    }

    // How far column x of a plain picture stands in its row, in bytes.
    pub fn column(self, tlut: u32, x: u32) -> usize
        ensures { result ≡ column (tile_of self) tlut x }
    {
        let at = x as usize;
        if (self.fmt == 1) & (2 <= tlut) {
            return at;
        }
        if self.siz == 0 {
            return at / 2;
        }
        if self.siz == 1 { at } else { 2 * at }
    }

    // Where row y of a plain picture starts: rows repeat every 256.
    pub fn row_start(self, y: u32) -> usize
        ensures { result ≡ row_start (tile_of self) y }
    {
        let line = self.line;
        let stride = line.bytes();
        (y % 256) as usize * stride.0
    }
}

// A side of a picture is above the limit.
pub fn sides_outside(width: u32, height: u32) -> bool
    ensures { result ≡ sides_outside width height }
{
    (SIDE_MOST < width) | (SIDE_MOST < height)
}

// The mode is none of 0 to 3.
pub fn mode_outside(mode: u32) -> bool
    ensures { result ≡ mode_outside mode }
{
    3 < mode
}

// The lane is none of 0 to 3.
pub fn lane_outside(lane: u32) -> bool
    ensures { result ≡ lane_outside lane }
{
    3 < lane
}

// The refusal of a call on a tile in a mode: 2, then 3.
pub fn check_tile_and_mode(tile: TileDescriptor, mode: u32) -> Result<(), Refusal>
    ensures { refusal_of result ≡ first (sampling_tests (tile_of tile) mode) }
{
    refuse(Refusal::Tile, tile.outside())?;
    refuse(Refusal::ModeOrLane, mode_outside(mode))
}
