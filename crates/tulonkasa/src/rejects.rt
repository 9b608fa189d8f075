// The rejected loads: block, tile, and lookup table by the hardware or by rows. Each leaves its reason where it stores.
ghost use Rattle.std.specs.Prelude.{◌≡◌, [], ◌∷◌};
ghost use Rattle.rules.specs.Calls.{block_call, tile_call, tlut_hardware_call, tlut_rows_call};
ghost use Rattle.rules.specs.Load.{rejected};
ghost use Rattle.tulonkasa.specs.View.{load_answered};
ghost use Rattle.rules.specs.Tile.{load_tile_from};

use crate::answer::LoadAnswer;
use crate::tile::load_tile_from;
use tmem::reason::Reason;

// A block load whose source was rejected for a reason. It answers as the ordinary one does.
#[unsafe(no_mangle)]
pub extern "C" fn tk_reject_block(
    bank: &mut [u8],
    written: &mut [u8],
    reasons: &mut [u8],
    source: &[u8],
    fmt: u32,
    siz: u32,
    line: u32,
    tmem_addr: u32,
    image_siz: u32,
    dxt: u32,
    word_count: u32,
    reason: u32,
    last: u32,
) -> LoadAnswer
    ensures { load_answered result (bank.new ∷ written.new ∷ reasons.new ∷ [])
        ≡ block_call bank.old written.old reasons.old source.now
        (load_tile_from fmt siz line tmem_addr) image_siz dxt word_count (rejected reason) last }
{
    let tile = load_tile_from(fmt, siz, line, tmem_addr);
    let loaded = tmem::load::write_block_for_tile(
        bank,
        written,
        reasons,
        source,
        tile,
        image_siz,
        dxt,
        word_count,
        Reason::Rejected(reason),
        last,
    );
    LoadAnswer::of(loaded, last)
}

// A rejected tile load.
#[unsafe(no_mangle)]
pub extern "C" fn tk_reject_tile(
    bank: &mut [u8],
    written: &mut [u8],
    reasons: &mut [u8],
    source: &[u8],
    fmt: u32,
    siz: u32,
    line: u32,
    tmem_addr: u32,
    image_siz: u32,
    row_count: u32,
    words_per_row: u32,
    stride: u32,
    reason: u32,
    last: u32,
) -> LoadAnswer
    ensures { load_answered result (bank.new ∷ written.new ∷ reasons.new ∷ [])
        ≡ tile_call bank.old written.old reasons.old source.now
        (load_tile_from fmt siz line tmem_addr) image_siz row_count words_per_row stride (rejected reason) last }
{
    let tile = load_tile_from(fmt, siz, line, tmem_addr);
    let loaded = tmem::load::write_tile_for_tile(
        bank,
        written,
        reasons,
        source,
        tile,
        image_siz,
        row_count,
        words_per_row,
        stride,
        Reason::Rejected(reason),
        last,
    );
    LoadAnswer::of(loaded, last)
}

// A rejected TLUT load by the hardware.
#[unsafe(no_mangle)]
pub extern "C" fn tk_reject_tlut_hardware(
    bank: &mut [u8],
    written: &mut [u8],
    reasons: &mut [u8],
    source: &[u8],
    fmt: u32,
    siz: u32,
    line: u32,
    tmem_addr: u32,
    image_siz: u32,
    count: u32,
    rows: u32,
    stride: u32,
    reason: u32,
    last: u32,
) -> LoadAnswer
    ensures { load_answered result (bank.new ∷ written.new ∷ reasons.new ∷ [])
        ≡ tlut_hardware_call bank.old written.old reasons.old source.now
        (load_tile_from fmt siz line tmem_addr) image_siz count rows stride (rejected reason) last }
{
    let tile = load_tile_from(fmt, siz, line, tmem_addr);
    let loaded = tmem::load::write_tlut_hardware_for_tile(
        bank,
        written,
        reasons,
        source,
        tile,
        image_siz,
        count,
        rows,
        stride,
        Reason::Rejected(reason),
        last,
    );
    LoadAnswer::of(loaded, last)
}

// A rejected TLUT load row by row.
#[unsafe(no_mangle)]
pub extern "C" fn tk_reject_tlut_rows(
    bank: &mut [u8],
    written: &mut [u8],
    reasons: &mut [u8],
    source: &[u8],
    fmt: u32,
    siz: u32,
    line: u32,
    tmem_addr: u32,
    image_siz: u32,
    row_entries: u32,
    rows: u32,
    stride: u32,
    reason: u32,
    last: u32,
) -> LoadAnswer
    ensures { load_answered result (bank.new ∷ written.new ∷ reasons.new ∷ [])
        ≡ tlut_rows_call bank.old written.old reasons.old source.now
        (load_tile_from fmt siz line tmem_addr) image_siz row_entries rows stride (rejected reason) last }
{
    let tile = load_tile_from(fmt, siz, line, tmem_addr);
    let loaded = tmem::load::write_tlut_rows_for_tile(
        bank,
        written,
        reasons,
        source,
        tile,
        image_siz,
        row_entries,
        rows,
        stride,
        Reason::Rejected(reason),
        last,
    );
    LoadAnswer::of(loaded, last)
}
