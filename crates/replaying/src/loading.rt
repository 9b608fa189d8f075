// A load of a replay's record.
ghost use Rattle.std.specs.Prelude.{◌≡◌, [], ◌^◌, ◌<◌};
ghost use Rattle.rules.specs.Calls.{number_tests};
ghost use Rattle.rules.specs.Refusal.{first};
ghost use Rattle.rdp.specs.View.{tile_of};
ghost use Rattle.tmem.specs.Asked.{asked_outside};

use rdp::tile::TileDescriptor;
use tmem::asked::Asked;

// A load that no test of its numbers refuses, and the part of the companion file that it names.
#[derive(Clone, Copy)]
pub(crate) struct Loading {
    pub(crate) tile: TileDescriptor,
    pub(crate) image: u32,
    pub(crate) asked: Asked,
    pub(crate) offset: u64,
    pub(crate) size: u64,
    pub(crate) ghost passes: { first (number_tests size (tile_of tile) image (asked_outside image asked) []) ≡ 0 },
    pub(crate) ghost offset_bound: { offset < 2 ^ 32 },
    pub(crate) ghost size_bound: { size < 2 ^ 32 },
}
