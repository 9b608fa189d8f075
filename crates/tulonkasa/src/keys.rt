// The key of a picture, and the check of one that was made elsewhere.
ghost use Rattle.std.specs.Prelude.{◌≡◌, [], ◌∷◌};
ghost use Rattle.rules.specs.Calls.{key_call, check_call};
ghost use Rattle.tulonkasa.specs.View.{answered, check_answered};
ghost use Rattle.rules.specs.Tile.{tile_from};

use crate::answer::{Answer, CheckAnswer};
use crate::tile::tile_from;

// The key of the picture that the flag calls for; the count of kept bytes is answered.
#[unsafe(no_mangle)]
pub extern "C" fn tk_key(
    bank: &[u8],
    fmt: u32,
    siz: u32,
    palette: u32,
    mode: u32,
    cms: u32,
    cmt: u32,
    masks: u32,
    maskt: u32,
    line: u32,
    tmem_addr: u32,
    width: u32,
    height: u32,
    lane: u32,
    key: &mut [u8],
) -> Answer
    ensures { answered result (key.new ∷ [])
        ≡ key_call bank.now (tile_from fmt siz palette cms cmt masks maskt line tmem_addr width height)
        mode lane key.old }
{
    let tile = tile_from(
        fmt, siz, palette, cms, cmt, masks, maskt, line, tmem_addr, width, height,
    );
    key::key::key(bank, tile, mode, lane, key).into()
}

// Whether the offer is that key; where it is not, the lowest wrong address and what is wrong there.
#[unsafe(no_mangle)]
pub extern "C" fn tk_check_key(
    bank: &[u8],
    fmt: u32,
    siz: u32,
    palette: u32,
    mode: u32,
    cms: u32,
    cmt: u32,
    masks: u32,
    maskt: u32,
    line: u32,
    tmem_addr: u32,
    width: u32,
    height: u32,
    lane: u32,
    offer: &[u8],
) -> CheckAnswer
    ensures { check_answered result
        ≡ check_call bank.now (tile_from fmt siz palette cms cmt masks maskt line tmem_addr width height)
        mode lane offer.now }
{
    let tile = tile_from(
        fmt, siz, palette, cms, cmt, masks, maskt, line, tmem_addr, width, height,
    );
    key::check::check_key(bank, tile, mode, lane, offer).into()
}
