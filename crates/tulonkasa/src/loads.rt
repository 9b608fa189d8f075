// The ordinary loads: block, tile, and lookup table by the hardware or by rows. Each clears the reasons where it stores.
ghost use Rattle.std.specs.Prelude.{◌≡◌, [], ◌∷◌};
ghost use Rattle.rules.specs.Calls.{block_call, tile_call, tlut_hardware_call, tlut_rows_call};
ghost use Rattle.rules.specs.Load.{ordinary};
ghost use Rattle.tulonkasa.specs.View.{load_answered};
ghost use Rattle.rules.specs.Tile.{load_tile_from};

use crate::answer::LoadAnswer;
use crate::tile::load_tile_from;
use tmem::reason::Reason;

// A block load, after a load of the number `last`. The count of stores is answered, how many of their bytes came from past the source's
// end, and the load's number; where it is refused, zeros and the number passed.
#[unsafe(no_mangle)]
pub extern "C" fn tk_load_block(
    bank: &mut [u8],
    written: &mut [u8],
    reasons: &mut [u8],
    source: &[u8],
    fmt: u32,
    siz: u32,
    line: u32,
    tmem_addr: u32,
    image_siz: u32,
    dxt: u32,
    word_count: u32,
    last: u32,
) -> LoadAnswer
    ensures { load_answered result (bank.new ∷ written.new ∷ reasons.new ∷ [])
        ≡ block_call bank.old written.old reasons.old source.now
        (load_tile_from fmt siz line tmem_addr) image_siz dxt word_count ordinary last }
{
    let tile = load_tile_from(fmt, siz, line, tmem_addr);
    let loaded = tmem::load::write_block_for_tile(
        bank,
        written,
        reasons,
        source,
        tile,
        image_siz,
        dxt,
        word_count,
        Reason::Ordinary,
        last,
    );
    LoadAnswer::of(loaded, last)
}

// A tile load.
#[unsafe(no_mangle)]
pub extern "C" fn tk_load_tile(
    bank: &mut [u8],
    written: &mut [u8],
    reasons: &mut [u8],
    source: &[u8],
    fmt: u32,
    siz: u32,
    line: u32,
    tmem_addr: u32,
    image_siz: u32,
    row_count: u32,
    words_per_row: u32,
    stride: u32,
    last: u32,
) -> LoadAnswer
    ensures { load_answered result (bank.new ∷ written.new ∷ reasons.new ∷ [])
        ≡ tile_call bank.old written.old reasons.old source.now
        (load_tile_from fmt siz line tmem_addr) image_siz row_count words_per_row stride ordinary last }
{
    let tile = load_tile_from(fmt, siz, line, tmem_addr);
    let loaded = tmem::load::write_tile_for_tile(
        bank,
        written,
        reasons,
        source,
        tile,
        image_siz,
        row_count,
        words_per_row,
        stride,
        Reason::Ordinary,
        last,
    );
    LoadAnswer::of(loaded, last)
}

// A TLUT load by the hardware: rows 1, and an image of size 1 to 3.
#[unsafe(no_mangle)]
pub extern "C" fn tk_load_tlut_hardware(
    bank: &mut [u8],
    written: &mut [u8],
    reasons: &mut [u8],
    source: &[u8],
    fmt: u32,
    siz: u32,
    line: u32,
    tmem_addr: u32,
    image_siz: u32,
    count: u32,
    rows: u32,
    stride: u32,
    last: u32,
) -> LoadAnswer
    ensures { load_answered result (bank.new ∷ written.new ∷ reasons.new ∷ [])
        ≡ tlut_hardware_call bank.old written.old reasons.old source.now
        (load_tile_from fmt siz line tmem_addr) image_siz count rows stride ordinary last }
{
    let tile = load_tile_from(fmt, siz, line, tmem_addr);
    let loaded = tmem::load::write_tlut_hardware_for_tile(
        bank,
        written,
        reasons,
        source,
        tile,
        image_siz,
        count,
        rows,
        stride,
        Reason::Ordinary,
        last,
    );
    LoadAnswer::of(loaded, last)
}

// A TLUT load row by row: the defined extension for several rows or an image of size 0.
#[unsafe(no_mangle)]
pub extern "C" fn tk_load_tlut_rows(
    bank: &mut [u8],
    written: &mut [u8],
    reasons: &mut [u8],
    source: &[u8],
    fmt: u32,
    siz: u32,
    line: u32,
    tmem_addr: u32,
    image_siz: u32,
    row_entries: u32,
    rows: u32,
    stride: u32,
    last: u32,
) -> LoadAnswer
    ensures { load_answered result (bank.new ∷ written.new ∷ reasons.new ∷ [])
        ≡ tlut_rows_call bank.old written.old reasons.old source.now
        (load_tile_from fmt siz line tmem_addr) image_siz row_entries rows stride ordinary last }
{
    let tile = load_tile_from(fmt, siz, line, tmem_addr);
    let loaded = tmem::load::write_tlut_rows_for_tile(
        bank,
        written,
        reasons,
        source,
        tile,
        image_siz,
        row_entries,
        rows,
        stride,
        Reason::Ordinary,
        last,
    );
    LoadAnswer::of(loaded, last)
}
