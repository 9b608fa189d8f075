// A tile in a mode, as the functions behind the calls take it.
ghost use Rattle.rdp.specs.View.{tile_of};
ghost use Rattle.rules.specs.Tile.{InRange};

use rdp::tile::TileDescriptor;

// A tile whose fields are in their ranges, and the mode that it is read in. The check of the calls makes it.
#[derive(Clone, Copy)]
pub(crate) struct TileInMode {
    pub(crate) tile: TileDescriptor,
    pub(crate) tlut: u32,
    ghost in_range: { InRange (tile_of tile) },
}
