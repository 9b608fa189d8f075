// The whole words of a row, noted eight bytes at a time. The order of notes does not show, so odd rows are as even ones.
ghost use Rattle.std.specs.Prelude.{◌≡◌, [], ◌+◌, ◌*◌, ◌/◌, ◌<◌, ◌≤◌};
ghost use Rattle.rules.specs.Base.{odd};
ghost use Rattle.rules.specs.Picture.{column, row_start, texel};
ghost use Rattle.rules.specs.Reading.{trail, up_to};
ghost use Rattle.rules.specs.Tile.{bank_words};
ghost use Rattle.key.specs.Notes.{noted};
ghost use Rattle.key.specs.Words.{word_texels, word_reading, direct_word, direct_words};
ghost use Rattle.rdp.specs.View.{tile_of};

use crate::indices::note_whole_indices;
use texdec::pair::Picture;
use tmem::bank::Bank;

// The words of the bank, and of each half.
const WORDS: usize = Bank::SIZE / 8;

pub(crate) const HALF_WORDS: usize = Bank::PALETTE_BASE / 8;

// The bytes of a word are noted that are a step apart: each, or every second one.
#[tactic(auto, using(crate::proofs::WordLaws::stepped), unfolding(crate::specs::Words::word_reading))]
pub(crate) fn note_word<const STEP: usize>(notes: &mut [u8; Bank::SIZE], at: usize)
    requires step_bound { (0 < STEP) × (STEP ≤ 2) }
    requires at_lt_bank_words { at < bank_words }
    ensures { notes.new ≡ noted notes.old (trail (word_reading STEP at) []) }
{
    // By number: it is every STEP-th byte of a word that is noted.
    for k in 0..8 / STEP {
        notes[8 * at + STEP * k] = 1;
    }
}

// A word that wraps at the bank's end; or where both halves are read, at the palette, with the word of the upper half.
#[tactic(auto, using(crate::proofs::WordLaws::both_noted, crate::proofs::WordLaws::word_noted))]
fn note_direct_word(notes: &mut [u8; Bank::SIZE], both: bool, word: usize)
    ensures { notes.new ≡ noted notes.old (trail (direct_word both word) []) }
{
    if both {
        let low = word % HALF_WORDS;
        note_word::<1>(notes, low);
        note_word::<1>(notes, low + HALF_WORDS);
    } else {
        note_word::<1>(notes, word % WORDS);
    }
}

// So many words from one on.
#[tactic(auto, using(crate::proofs::Notes::walked), unfolding(crate::specs::Words::direct_words))]
fn note_direct_words(notes: &mut [u8; Bank::SIZE], both: bool, first: usize, words: usize)
    requires { first + words ≤ 2097152 }
    ensures { notes.new ≡ noted notes.old (trail (direct_words both first words) []) }
{
    for w in 0..words {
        note_direct_word(notes, both, first + w);
    }
}

// How many texels of a row a word has.
fn word_texels(siz: u32) -> u32
    ensures value { result ≡ word_texels siz }
    ensures lower_bound { (4 ≤ result) × (result ≤ 16) }
{
    match siz {
        0 => 16,
        1 => 8,
        _ => 4,
    }
}

// The whole words of a row: the first of them, how many there are, and how many texels they have.
#[derive(Clone, Copy)]
pub(crate) struct RowWords {
    pub(crate) first: usize,
    pub(crate) words: usize,
    pub(crate) texels: u32,
}

// Those of row y.
pub(crate) fn row_words(picture: Picture, y: u32) -> RowWords
    ensures first_value { (result.first ≡ (tile_of picture.tile).tmem_addr + row_start (tile_of picture.tile) y / 8)
        × (result.texels ≡ word_texels picture.tile.siz * result.words) }
    ensures texels_le_width { (result.texels ≤ picture.tile.width) × (result.first + result.words ≤ 2097152) }
{
    let tile = picture.tile;
    let texels = word_texels(tile.siz);
    let words = tile.width / texels;
    RowWords {
        first: tile.tmem_addr.0 as usize + tile.row_start(y) / 8,
        words: words as usize,
        texels: texels * words,
    }
}

// Row y of a plain picture as far as its texels fill whole words; the answer is how many do.
pub(crate) fn note_whole_words(
    bank: &[u8; Bank::SIZE],
    notes: &mut [u8; Bank::SIZE],
    picture: Picture,
    y: u32,
) -> u32
    ensures upper_bound { result ≤ picture.tile.width }
    ensures notes_after { let t = tile_of picture.tile in
        notes.new ≡ noted notes.old
        (trail (up_to result (λ x. texel t picture.tlut picture.lane (odd y) (row_start t y + column t picture.tlut x) x)) bank.now) }
{
    if 2 <= picture.tlut {
        return note_whole_indices(bank, notes, picture, y);
    }
    let row = row_words(picture, y);
    let tile = picture.tile;
    note_direct_words(
        notes,
        (tile.fmt == 0) & (tile.siz == 3),
        row.first,
        row.words,
    );
    row.texels
}
