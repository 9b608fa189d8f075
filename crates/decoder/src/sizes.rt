// How large the picture that is asked for is.
ghost use Rattle.std.specs.Prelude.{◌≡◌, ◌≤◌};
ghost use Rattle.rules.specs.Tile.{side_limit};
ghost use Rattle.rdp.specs.View.{tile_of};
ghost use Rattle.decoder.specs.Sizes.{texels_by, width_by, rows_by};

use texdec::pair::Picture;
use tmem::bank::Bank;

// A lookup has a texel for each place of the bank, in four rows.
const LOOKUP_WIDTH: usize = Bank::SIZE;

const LOOKUP_ROWS: usize = 4;

// The texels of a row, and the rows.
pub(crate) fn row_width(picture: Picture, lookup: bool) -> usize
    ensures { result ≡ width_by lookup (tile_of picture.tile) }
{
    if lookup {
        LOOKUP_WIDTH
    } else {
        picture.tile.width as usize
    }
}

pub(crate) fn row_count(picture: Picture, lookup: bool) -> usize
    ensures { result ≡ rows_by lookup (tile_of picture.tile) }
{
    if lookup {
        LOOKUP_ROWS
    } else {
        picture.tile.height as usize
    }
}
