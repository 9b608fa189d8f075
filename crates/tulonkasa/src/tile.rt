// A tile of its numbers.
ghost use Rattle.std.specs.Prelude.{◌≡◌};
ghost use Rattle.rdp.specs.View.{tile_of};
ghost use Rattle.rules.specs.Tile.{tile_from, load_tile_from, linear_tile_from};

use rdp::tile::TileDescriptor;
use rdp::units::{LineWords, WordAddr};

// The tile of its eleven numbers.
pub(crate) fn tile_from(
    fmt: u32,
    siz: u32,
    palette: u32,
    cms: u32,
    cmt: u32,
    masks: u32,
    maskt: u32,
    line: u32,
    tmem_addr: u32,
    width: u32,
    height: u32,
) -> TileDescriptor
    ensures { tile_of result ≡ tile_from fmt siz palette cms cmt masks maskt line tmem_addr width height }
{
    TileDescriptor {
        fmt,
        siz,
        palette,
        cms,
        cmt,
        masks,
        maskt,
        line: LineWords(line),
        tmem_addr: WordAddr(tmem_addr),
        width,
        height,
    }
}

// The tile of the four numbers that a load takes.
pub(crate) fn load_tile_from(fmt: u32, siz: u32, line: u32, tmem_addr: u32) -> TileDescriptor
    ensures { tile_of result ≡ load_tile_from fmt siz line tmem_addr }
{
    tile_from(fmt, siz, 0, 0, 0, 0, 0, line, tmem_addr, 0, 0)
}

// The tile of the five numbers that a linear decoding takes.
pub(crate) fn linear_tile_from(
    fmt: u32,
    siz: u32,
    palette: u32,
    width: u32,
    height: u32,
) -> TileDescriptor
    ensures { tile_of result ≡ linear_tile_from fmt siz palette width height }
{
    tile_from(fmt, siz, palette, 0, 0, 0, 0, 0, 0, width, height)
}
