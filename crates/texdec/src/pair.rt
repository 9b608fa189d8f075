// A picture that can be made: the refusals of a call that decodes are those of its tile, mode and lane, and of a pair that is not
// accepted.
ghost use Rattle.std.specs.Prelude.{◌≡◌, true, ◌≤◌, IfOk};
ghost use Rattle.rules.specs.Calls.{pair_tests};
ghost use Rattle.rules.specs.Refusal.{first};
ghost use Rattle.rules.specs.Texdec.{accepted};
ghost use Rattle.rules.specs.Tile.{InRange};
ghost use Rattle.rdp.specs.Refused.{refusal_of};
ghost use Rattle.rdp.specs.View.{tile_of};

use crate::format::FormatInfo;
use rdp::refusal::{Refusal, refuse};
use rdp::tile;
use rdp::tile::TileDescriptor;

// A tile in a mode, on a lane: all three in their ranges, and the pair of format and size accepted in the mode.
#[derive(Clone, Copy)]
pub struct Picture {
    pub tile: TileDescriptor,
    pub tlut: u32,
    pub lane: u32,
    pub ghost in_range: { InRange (tile_of tile) },
    pub ghost tlut_bound: { tlut ≤ 3 },
    pub ghost lane_bound: { lane ≤ 3 },
    pub ghost pair_accepted: { accepted tlut tile.fmt tile.siz ≡ true },
}

impl Picture {
    // The picture, or the refusal: 2, then 3 for the mode and the lane, then 5.
    pub fn new(tile: TileDescriptor, tlut: u32, lane: u32) -> Result<Picture, Refusal>
        ensures refused { refusal_of result ≡ first (pair_tests (tile_of tile) tlut lane) }
        ensures kept { IfOk result (λ p. (p.tile ≡ tile) × (p.tlut ≡ tlut) × (p.lane ≡ lane)) }
    {
        tile::check_tile_and_mode(tile, tlut)?;
        refuse(Refusal::ModeOrLane, tile::lane_outside(lane))?;
        let pair = FormatInfo {
            fmt: tile.fmt,
            siz: tile.siz,
        };
        refuse(Refusal::Pair, !pair.validate_tlut(tlut))?;
        Ok(Picture { tile, tlut, lane })
    }
}
