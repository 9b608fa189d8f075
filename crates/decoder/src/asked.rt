// What a picture call asks for, before it is tested.
use rdp::tile::TileDescriptor;

// The picture of a tile in a mode and on a lane, or its lookup, and whether with the trail of its reads.
#[derive(Clone, Copy)]
pub(crate) struct Asked {
    pub(crate) tile: TileDescriptor,
    pub(crate) tlut_fmt: u32,
    pub(crate) lane: u32,
    pub(crate) lookup: bool,
    // A flag beside the lent trail: a proof loses what was written through an `Option` of it.
    pub(crate) observe: bool,
}
