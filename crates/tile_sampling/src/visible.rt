// What of a tile a renderer shows: where an axis repeats inside its size, the first 2^mask columns or rows.
ghost use Rattle.std.specs.Prelude.{◌≡◌};
ghost use Rattle.rules.specs.Sampling.{visible_side, visible};
ghost use Rattle.rdp.specs.View.{tile_of};

use crate::sampling::repeats;
use rdp::tile::TileDescriptor;

// The columns or rows of an axis that are shown. A mask above 31 is below no size.
fn visible_side(cm: u32, mask: u32, size: u32) -> u32
    ensures { result ≡ visible_side cm mask size }
{
    if 31 < mask {
        return size;
    }
    let period = 1u32 << mask;
    if repeats(cm, mask) & (period < size) {
        period
    } else {
        size
    }
}

// The tile with its sides cut to what is shown.
pub fn visible(tile: TileDescriptor) -> TileDescriptor
    ensures { tile_of result ≡ visible (tile_of tile) }
{
    let mut cut = tile;
    cut.width = visible_side(tile.cms, tile.masks, tile.width);
    cut.height = visible_side(tile.cmt, tile.maskt, tile.height);
    cut
}
