// What a picture is decoded by, worked out once a call.
ghost use Rattle.std.specs.Prelude.{◌≡◌, ◌*◌, ◌≤◌};
ghost use Rattle.rules.specs.Picture.{reads_each};
ghost use Rattle.rules.specs.Tile.{side_limit};
ghost use Rattle.rdp.specs.View.{tile_of};
ghost use Rattle.decoder.specs.Sizes.{texels_by, width_by, rows_by, trail_step};

use crate::format::tile_reads;
use crate::sizes::{row_count, row_width};
use texdec::pair::Picture;

#[derive(Clone, Copy)]
pub(crate) struct Plan {
    pub(crate) picture: Picture,
    pub(crate) lookup: bool,
    pub(crate) observe: bool,
    // The reads of a texel.
    pub(crate) each: usize,
    // The texels of a row, and the rows.
    pub(crate) width: usize,
    pub(crate) rows: usize,
    // The bytes of trail that a texel takes: none where it is not observed.
    pub(crate) step: usize,
    pub(crate) ghost each_is: { each ≡ reads_each (tile_of picture.tile) picture.tlut },
    pub(crate) ghost width_is: { width ≡ width_by lookup (tile_of picture.tile) },
    pub(crate) ghost rows_is: { rows ≡ rows_by lookup (tile_of picture.tile) },
    pub(crate) ghost step_is: { step ≡ trail_step observe (tile_of picture.tile) picture.tlut },
}

impl Plan {
    // The plan of a picture or of its lookup, with the trail of its reads or without.
    pub(crate) fn new(picture: Picture, lookup: bool, observe: bool) -> Plan
        ensures picture { result.picture ≡ picture }
        ensures lookup { result.lookup ≡ lookup }
        ensures observe { result.observe ≡ observe }
    {
        let each = tile_reads(picture);
        Plan {
            picture,
            lookup,
            observe,
            each,
            width: row_width(picture, lookup),
            rows: row_count(picture, lookup),
            step: if observe { 2 * each } else { 0 },
        }
    }

    // All texels.
    pub(crate) fn texels(self) -> usize
        ensures value { result ≡ texels_by self.lookup (tile_of self.picture.tile) }
        ensures upper_bound { result ≤ side_limit * side_limit }
    {
        self.width * self.rows
    }
}
