// The refusal of the calls that take a map and a tile.
ghost use Rattle.std.specs.Prelude.{◌≡◌, length, IfOk};
ghost use Rattle.rules.specs.Calls.{map_tests};
ghost use Rattle.rules.specs.Refusal.{first};
ghost use Rattle.rdp.specs.Refused.{refusal_of};
ghost use Rattle.rdp.specs.View.{tile_of};

use crate::tile::TileInMode;
use rdp::refusal::{Refusal, refuse};
use rdp::tile;
use rdp::tile::TileDescriptor;

// The tile in its mode, of a map that has `size` bytes, or the refusal: 1, 2, 3.
pub(crate) fn check_map(
    map: &[u8],
    size: usize,
    tile: TileDescriptor,
    tlut: u32,
) -> Result<TileInMode, Refusal>
    ensures refusal { refusal_of result ≡ first (map_tests size map.now (tile_of tile) tlut) }
    ensures checked { IfOk result (λ t. (t.tile ≡ tile) × (t.tlut ≡ tlut) × (length map.now ≡ size)) }
{
    refuse(Refusal::Length, map.len() != size)?;
    tile::check_tile_and_mode(tile, tlut)?;
    Ok(TileInMode { tile, tlut })
}
