// The pictures: the plain one and the lookup, each alone or with the trail of its reads; and the linear decoding of a source.
ghost use Rattle.std.specs.Prelude.{◌≡◌, [], ◌∷◌};
ghost use Rattle.rules.specs.Calls.{sample_tile_call, sample_tile_observed_call, sampling_lookup_call, sampling_lookup_observed_call};
ghost use Rattle.rules.specs.Calls.{linear_call};
ghost use Rattle.tulonkasa.specs.View.{answered};
ghost use Rattle.rules.specs.Tile.{tile_from, linear_tile_from};

use crate::answer::Answer;
use crate::tile::{linear_tile_from, tile_from};

// The plain picture; the count of reads is answered.
#[unsafe(no_mangle)]
pub extern "C" fn tk_sample_tile(
    bank: &[u8],
    fmt: u32,
    siz: u32,
    palette: u32,
    mode: u32,
    cms: u32,
    cmt: u32,
    masks: u32,
    maskt: u32,
    line: u32,
    tmem_addr: u32,
    width: u32,
    height: u32,
    lane: u32,
    picture: &mut [u8],
) -> Answer
    ensures { answered result (picture.new ∷ [])
        ≡ sample_tile_call bank.now (tile_from fmt siz palette cms cmt masks maskt line tmem_addr width height)
        mode lane picture.old }
{
    let tile = tile_from(
        fmt, siz, palette, cms, cmt, masks, maskt, line, tmem_addr, width, height,
    );
    decoder::picture::sample_tile_lane(bank, tile, mode, lane, picture).into()
}

// The plain picture with the trail of its reads.
#[unsafe(no_mangle)]
pub extern "C" fn tk_sample_tile_observed(
    bank: &[u8],
    fmt: u32,
    siz: u32,
    palette: u32,
    mode: u32,
    cms: u32,
    cmt: u32,
    masks: u32,
    maskt: u32,
    line: u32,
    tmem_addr: u32,
    width: u32,
    height: u32,
    lane: u32,
    picture: &mut [u8],
    trail: &mut [u8],
) -> Answer
    ensures { answered result (picture.new ∷ trail.new ∷ [])
        ≡ sample_tile_observed_call bank.now (tile_from fmt siz palette cms cmt masks maskt line tmem_addr width height)
        mode lane picture.old trail.old }
{
    let tile = tile_from(
        fmt, siz, palette, cms, cmt, masks, maskt, line, tmem_addr, width, height,
    );
    decoder::picture::sample_tile_lane_observed(bank, tile, mode, lane, picture, trail).into()
}

// The lookup.
#[unsafe(no_mangle)]
pub extern "C" fn tk_sampling_lookup(
    bank: &[u8],
    fmt: u32,
    siz: u32,
    palette: u32,
    mode: u32,
    cms: u32,
    cmt: u32,
    masks: u32,
    maskt: u32,
    line: u32,
    tmem_addr: u32,
    width: u32,
    height: u32,
    lane: u32,
    picture: &mut [u8],
) -> Answer
    ensures { answered result (picture.new ∷ [])
        ≡ sampling_lookup_call bank.now (tile_from fmt siz palette cms cmt masks maskt line tmem_addr width height)
        mode lane picture.old }
{
    let tile = tile_from(
        fmt, siz, palette, cms, cmt, masks, maskt, line, tmem_addr, width, height,
    );
    decoder::picture::sampling_lookup_lane(bank, tile, mode, lane, picture).into()
}

// The lookup with the trail of its reads.
#[unsafe(no_mangle)]
pub extern "C" fn tk_sampling_lookup_observed(
    bank: &[u8],
    fmt: u32,
    siz: u32,
    palette: u32,
    mode: u32,
    cms: u32,
    cmt: u32,
    masks: u32,
    maskt: u32,
    line: u32,
    tmem_addr: u32,
    width: u32,
    height: u32,
    lane: u32,
    picture: &mut [u8],
    trail: &mut [u8],
) -> Answer
    ensures { answered result (picture.new ∷ trail.new ∷ [])
        ≡ sampling_lookup_observed_call bank.now (tile_from fmt siz palette cms cmt masks maskt line tmem_addr width height)
        mode lane picture.old trail.old }
{
    let tile = tile_from(
        fmt, siz, palette, cms, cmt, masks, maskt, line, tmem_addr, width, height,
    );
    decoder::picture::sampling_lookup_lane_observed(bank, tile, mode, lane, picture, trail).into()
}

// The linear decoding of a source, without a bank; the count of reads is answered.
#[unsafe(no_mangle)]
pub extern "C" fn tk_decode_linear(
    source: &[u8],
    fmt: u32,
    siz: u32,
    palette: u32,
    width: u32,
    height: u32,
    stride: u32,
    picture: &mut [u8],
) -> Answer
    ensures { answered result (picture.new ∷ [])
        ≡ linear_call source.now (linear_tile_from fmt siz palette width height) stride picture.old }
{
    let tile = linear_tile_from(fmt, siz, palette, width, height);
    decoder::linear::decode_linear(source, tile, stride, picture).into()
}
