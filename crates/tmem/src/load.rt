// The loads: a block, a tile or a lookup table into the bank. Each refuses, or stores and leaves its number and its reason.
ghost use Rattle.std.specs.Prelude.{◌≡◌, false, [], ◌∷◌, ◌≤◌};
ghost use Rattle.rules.specs.Refusal.{◌if◌, first};
ghost use Rattle.rules.specs.Calls.{lent_tests, number_spent, bad_reason, number_tests};
ghost use Rattle.rules.specs.Calls.{block_call, tile_call, tlut_hardware_call, tlut_rows_call};
ghost use Rattle.rdp.specs.Refused.{refusal_of};
ghost use Rattle.rdp.specs.View.{tile_of, load_answered};
ghost use Rattle.tmem.specs.Asked.{asked_outside, asked_stores, asked_call};
ghost use Rattle.tmem.specs.Part.{load_of, lists, CountedApart};
ghost use Rattle.tmem.specs.Reasons.{reason_of};

use crate::asked::Asked;
use crate::bank::Bank;
use crate::memory::{Label, Memory};
use crate::place::LoadTile;
use crate::reason::Reason;
use crate::tally::Tally;
use rdp::answer::Loaded;
use rdp::refusal::{Refusal, refuse};
use rdp::tile::TileDescriptor;

// The bytes that a source has at most.
const SOURCE_LIMIT: usize = 65536;

// The last number that leaves another for a load.
const LAST_LIMIT: u32 = 65534;

// The first refusal of a load's numbers, for a source of `size` bytes: 2, then 4.
pub fn check_numbers(
    size: usize,
    tile: TileDescriptor,
    image_siz: u32,
    asked: Asked,
) -> Result<(), Refusal>
    ensures { refusal_of result ≡ first (number_tests size (tile_of tile) image_siz (asked_outside image_siz asked) []) }
{
    refuse(Refusal::Tile, tile.load_fields_outside())?;
    refuse(Refusal::Load, (SOURCE_LIMIT < size) | (3 < image_siz))?;
    refuse(Refusal::Load, asked.outside(image_siz))
}

// No number is left after the last one given.
pub fn is_spent(last: u32) -> bool
    ensures { result ≡ number_spent last }
{
    LAST_LIMIT < last
}

// The refusal of the lengths of bank, written map and reasons.
pub fn check_lent(bank: &[u8], written: &[u8], reasons: &[u8]) -> Result<(), Refusal>
    ensures { refusal_of result ≡ first (lent_tests bank.now written.now reasons.now []) }
{
    refuse(Refusal::Length, bank.len() != Bank::SIZE)?;
    refuse(Refusal::Length, written.len() != Bank::WRITTEN_SIZE)?;
    refuse(Refusal::Length, reasons.len() != Bank::REASONS_SIZE)
}

// The refusals of a load beside those of the buffers' lengths: 2, 4, 19, 18.
fn check_load(
    size: usize,
    tile: TileDescriptor,
    image_siz: u32,
    asked: Asked,
    reason: Reason,
    last: u32,
) -> Result<(), Refusal>
    ensures { refusal_of result ≡ first (number_tests size (tile_of tile) image_siz (asked_outside image_siz asked)
        (bad_reason (reason_of reason) ∷ (18 if number_spent last) ∷ [])) }
{
    check_numbers(size, tile, image_siz, asked)?;
    refuse(Refusal::Reason, reason.outside())?;
    refuse(Refusal::Spent, is_spent(last))
}

// What is asked for, on a bank, a written map and reasons of their lengths; it answers its tally of stores.
fn carry_out(
    bank: &mut [u8; Bank::SIZE],
    written: &mut [u8; Bank::WRITTEN_SIZE],
    reasons: &mut [u8; Bank::REASONS_SIZE],
    label: Label,
    src: &[u8],
    tile: LoadTile,
    image_siz: u32,
    asked: Asked,
) -> Tally
    requires image_siz_bound { image_siz ≤ 3 }
    requires asked_inside { asked_outside image_siz asked ≡ false }
    ensures { CountedApart src.now (asked_stores (load_of tile) image_siz asked) label
        (lists bank.old written.old reasons.old) (lists bank.new written.new reasons.new) result }
{
    let mut memory = Memory {
        bank,
        written,
        reasons,
        label,
    };
    asked.write(&mut memory, src, tile, image_siz)
}

// Every load, ordinary or rejected, after the one whose number is `last`: it refuses, or carries out what is asked, and answers.
pub fn load(
    bank: &mut [u8],
    written: &mut [u8],
    reasons: &mut [u8],
    src: &[u8],
    tile: TileDescriptor,
    image_siz: u32,
    asked: Asked,
    reason: Reason,
    last: u32,
) -> Result<Loaded, Refusal>
    ensures { load_answered last result (bank.new ∷ written.new ∷ reasons.new ∷ [])
        ≡ asked_call bank.old written.old reasons.old src.now (tile_of tile) image_siz asked
        (reason_of reason) last }
{
    check_lent(bank, written, reasons)?;
    check_load(src.len(), tile, image_siz, asked, reason, last)?;
    let number = last + 1;
    let label = Label {
        number: number as u16,
        reason: reason.left(),
    };
    let done = carry_out(
        bank.as_mut_array().unwrap(),
        written.as_mut_array().unwrap(),
        reasons.as_mut_array().unwrap(),
        label,
        src,
        tile.into(),
        image_siz,
        asked,
    );
    Ok(Loaded {
        count: done.count,
        made_up: done.made_up,
        number,
    })
}

// A block of words, whose row advances by dxt 2,048ths a word.
pub fn write_block_for_tile(
    bank: &mut [u8],
    written: &mut [u8],
    reasons: &mut [u8],
    src: &[u8],
    tile: TileDescriptor,
    image_siz: u32,
    dxt: u32,
    word_count: u32,
    reason: Reason,
    last: u32,
) -> Result<Loaded, Refusal>
    ensures { load_answered last result (bank.new ∷ written.new ∷ reasons.new ∷ [])
        ≡ block_call bank.old written.old reasons.old src.now
        (tile_of tile) image_siz dxt word_count (reason_of reason) last }
{
    let asked = Asked::Block {
        dxt: dxt as usize,
        words: word_count as usize,
    };
    load(
        bank, written, reasons, src, tile, image_siz, asked, reason, last,
    )
}

// Rows of words, which stand `stride` bytes apart in the source.
pub fn write_tile_for_tile(
    bank: &mut [u8],
    written: &mut [u8],
    reasons: &mut [u8],
    src: &[u8],
    tile: TileDescriptor,
    image_siz: u32,
    row_count: u32,
    words_per_row: u32,
    stride: u32,
    reason: Reason,
    last: u32,
) -> Result<Loaded, Refusal>
    ensures { load_answered last result (bank.new ∷ written.new ∷ reasons.new ∷ [])
        ≡ tile_call bank.old written.old reasons.old src.now (tile_of tile) image_siz
        row_count words_per_row stride (reason_of reason) last }
{
    let asked = Asked::Tile {
        rows: row_count as usize,
        words: words_per_row as usize,
        stride: stride as usize,
    };
    load(
        bank, written, reasons, src, tile, image_siz, asked, reason, last,
    )
}

// A lookup table of `count` entries, by the hardware's load: rows 1, and an image of size 1 to 3.
pub fn write_tlut_hardware_for_tile(
    bank: &mut [u8],
    written: &mut [u8],
    reasons: &mut [u8],
    src: &[u8],
    tile: TileDescriptor,
    image_siz: u32,
    count: u32,
    rows: u32,
    stride: u32,
    reason: Reason,
    last: u32,
) -> Result<Loaded, Refusal>
    ensures { load_answered last result (bank.new ∷ written.new ∷ reasons.new ∷ [])
        ≡ tlut_hardware_call bank.old written.old reasons.old src.now
        (tile_of tile) image_siz count rows stride (reason_of reason) last }
{
    let by_hardware = Asked::TlutHardware {
        count: count as usize,
        rows: rows as usize,
        stride: stride as usize,
    };
    load(
        bank,
        written,
        reasons,
        src,
        tile,
        image_siz,
        by_hardware,
        reason,
        last,
    )
}

// A lookup table of `row_entries` entries a row, row by row: the defined extension for several rows or an image of size 0.
pub fn write_tlut_rows_for_tile(
    bank: &mut [u8],
    written: &mut [u8],
    reasons: &mut [u8],
    src: &[u8],
    tile: TileDescriptor,
    image_siz: u32,
    row_entries: u32,
    rows: u32,
    stride: u32,
    reason: Reason,
    last: u32,
) -> Result<Loaded, Refusal>
    ensures { load_answered last result (bank.new ∷ written.new ∷ reasons.new ∷ [])
        ≡ tlut_rows_call bank.old written.old reasons.old src.now
        (tile_of tile) image_siz row_entries rows stride (reason_of reason) last }
{
    let by_rows = Asked::TlutRows {
        count: row_entries as usize,
        rows: rows as usize,
        stride: stride as usize,
    };
    load(
        bank, written, reasons, src, tile, image_siz, by_rows, reason, last,
    )
}
