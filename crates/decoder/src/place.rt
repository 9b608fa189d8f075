// Where the texels of a row stand: the rel of each, whether the row is odd, and the x that picks a nibble.
ghost use Rattle.std.specs.Prelude.{◌≡◌, ◌<◌, ◌≤◌};
ghost use Rattle.rdp.specs.View.{tile_of};
ghost use Rattle.decoder.specs.Rows.{placing, scale_of, row_at, rel_in, x_in};

use crate::row::Row;
use texdec::pair::Picture;

// The halves of a byte that a texel takes in its row.
fn scale_of(picture: Picture) -> usize
    ensures value { result ≡ scale_of (tile_of picture.tile) picture.tlut }
    ensures upper_bound { result ≤ 4 }
{
    if (picture.tile.fmt == 1) & (2 <= picture.tlut) {
        return 2;
    }
    let siz = picture.tile.siz;
    match siz {
        0 => 1,
        1 => 2,
        _ => 4,
    }
}

// Row y of the lookup or of the plain picture.
pub(crate) fn row_at(picture: Picture, lookup: bool, y: usize) -> Row
    requires { y < 4294967296 }
    ensures { placing result ≡ row_at lookup (tile_of picture.tile) picture.tlut y }
{
    if lookup {
        return Row {
            odd: y / 2 % 2 == 1,
            start: 0,
            scale: 2,
            first_x: y % 2,
            x_step: 0,
        };
    }
    Row {
        odd: y % 2 == 1,
        start: picture.tile.row_start(y as u32),
        scale: scale_of(picture),
        first_x: 0,
        x_step: 1,
    }
}

impl Row {
    #[inline(always)]
    pub(crate) fn rel(self, i: usize) -> usize
        requires { i < 4096 }
        ensures value { result ≡ rel_in (placing self) i }
        ensures upper_bound { result < 8000000 }
    {
        self.start + i * self.scale / 2
    }

    #[inline(always)]
    pub(crate) fn x(self, i: usize) -> usize
        requires { i < 4096 }
        ensures { result ≡ x_in (placing self) i }
    {
        self.first_x + i * self.x_step
    }
}
