// The calls on maps: reach, has-load, the question for a reason, and the lane check.
ghost use Rattle.std.specs.Prelude.{◌≡◌, [], ◌∷◌};
ghost use Rattle.rules.specs.Calls.{reach_call, has_load_call, rejection_call, lane_call};
ghost use Rattle.tulonkasa.specs.View.{yes_answered, reason_answered, refusal_answered};
ghost use Rattle.rules.specs.Tile.{tile_from};

use crate::answer::{ReasonAnswer, YesAnswer, refusal_number};
use crate::tile::tile_from;

// The addresses that a tile can reach, as a map; the refusal is answered.
#[unsafe(no_mangle)]
pub extern "C" fn tk_reach(
    fmt: u32,
    siz: u32,
    palette: u32,
    mode: u32,
    cms: u32,
    cmt: u32,
    masks: u32,
    maskt: u32,
    line: u32,
    tmem_addr: u32,
    width: u32,
    height: u32,
    map: &mut [u8],
) -> u32
    ensures { refusal_answered result (map.new ∷ [])
        ≡ reach_call (tile_from fmt siz palette cms cmt masks maskt line tmem_addr width height) mode map.old }
{
    let tile = tile_from(
        fmt, siz, palette, cms, cmt, masks, maskt, line, tmem_addr, width, height,
    );
    refusal_number(reach::reach::reach(tile, mode, map))
}

// Whether reach and the written map meet.
#[unsafe(no_mangle)]
pub extern "C" fn tk_tile_has_load(
    fmt: u32,
    siz: u32,
    palette: u32,
    mode: u32,
    cms: u32,
    cmt: u32,
    masks: u32,
    maskt: u32,
    line: u32,
    tmem_addr: u32,
    width: u32,
    height: u32,
    written: &[u8],
) -> YesAnswer
    ensures { yes_answered result
        ≡ has_load_call (tile_from fmt siz palette cms cmt masks maskt line tmem_addr width height) mode written.now }
{
    let tile = tile_from(
        fmt, siz, palette, cms, cmt, masks, maskt, line, tmem_addr, width, height,
    );
    reach::has_load::tile_has_load(tile, mode, written).into()
}

// The first reason among the bytes that the tile reaches, then, in modes 2 and 3, of its palette; 0 is none.
#[unsafe(no_mangle)]
pub extern "C" fn tk_rejection(
    fmt: u32,
    siz: u32,
    palette: u32,
    mode: u32,
    cms: u32,
    cmt: u32,
    masks: u32,
    maskt: u32,
    line: u32,
    tmem_addr: u32,
    width: u32,
    height: u32,
    reasons: &[u8],
) -> ReasonAnswer
    ensures { reason_answered result
        ≡ rejection_call (tile_from fmt siz palette cms cmt masks maskt line tmem_addr width height) mode reasons.now }
{
    let tile = tile_from(
        fmt, siz, palette, cms, cmt, masks, maskt, line, tmem_addr, width, height,
    );
    reach::rejection::rejection(tile, mode, reasons).into()
}

// The palette slots whose lanes differ, as a map; the refusal is answered.
#[unsafe(no_mangle)]
pub extern "C" fn tk_palette_nonreplicated(bank: &[u8], map: &mut [u8]) -> u32
    ensures { refusal_answered result (map.new ∷ []) ≡ lane_call bank.now map.old }
{
    refusal_number(reach::lane::palette_nonreplicated_bytes(bank, map))
}
