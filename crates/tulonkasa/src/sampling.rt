// Which picture a tile calls for, and how large it is.
ghost use Rattle.std.specs.Prelude.{◌≡◌};
ghost use Rattle.rules.specs.Calls.{sampling_call};
ghost use Rattle.tulonkasa.specs.View.{sampling_answered};
ghost use Rattle.rules.specs.Tile.{tile_from};

use crate::answer::SamplingAnswer;
use crate::tile::tile_from;

// The sampling flag and the allocation extent.
#[unsafe(no_mangle)]
pub extern "C" fn tk_sampling(
    fmt: u32,
    siz: u32,
    palette: u32,
    mode: u32,
    cms: u32,
    cmt: u32,
    masks: u32,
    maskt: u32,
    line: u32,
    tmem_addr: u32,
    width: u32,
    height: u32,
) -> SamplingAnswer
    ensures { sampling_answered result ≡ sampling_call (tile_from fmt siz palette cms cmt masks maskt line tmem_addr width height) mode }
{
    let tile = tile_from(
        fmt, siz, palette, cms, cmt, masks, maskt, line, tmem_addr, width, height,
    );
    tile_sampling::sampling::sampling(tile, mode).into()
}
