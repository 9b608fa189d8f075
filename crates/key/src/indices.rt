// Index bytes, noted with the entries that they stand for, a word at a time. A byte of four-bit indices has two, any other the same twice.
ghost use Rattle.std.specs.Prelude.{◌≡◌, [], ◌+◌, ◌<◌, ◌≤◌};
ghost use Rattle.rules.specs.Base.{odd};
ghost use Rattle.rules.specs.Picture.{column, row_start, texel};
ghost use Rattle.rules.specs.Reading.{trail, up_to};
ghost use Rattle.key.specs.Notes.{noted};
ghost use Rattle.key.specs.Words.{entries_of, index_word, index_words};
ghost use Rattle.rdp.specs.View.{tile_of};

use crate::reads::{entry_at, note_two};
use crate::words::{HALF_WORDS, note_word, row_words};
use texdec::pair::Picture;
use tmem::bank::Bank;

// The entries of an index byte.
#[tactic(auto, unfolding(crate::specs::Notes::noted, crate::specs::Words::entries_of, rules::specs::Reading::trail))]
fn note_entries(notes: &mut [u8; Bank::SIZE], picture: Picture, byte: u8)
    ensures { notes.new
        ≡ noted notes.old (trail (entries_of (tile_of picture.tile) picture.lane byte) []) }
{
    let even = entry_at(picture, 0, byte).0;
    let odd = entry_at(picture, 1, byte).0;
    note_two(notes, even, even + 1);
    note_two(notes, odd, odd + 1);
}

// A word of them, which stand a step apart: the entries, then the bytes.
#[tactic(auto, using(crate::proofs::WordLaws::stepped), unfolding(crate::specs::Words::index_word))]
fn note_index_word<const STEP: usize>(
    bank: &[u8; Bank::SIZE],
    notes: &mut [u8; Bank::SIZE],
    picture: Picture,
    at: usize,
)
    requires step_bound { (0 < STEP) × (STEP ≤ 2) }
    requires at_bound { at < 256 }
    ensures { notes.new ≡ noted notes.old
        (trail (index_word STEP (tile_of picture.tile) picture.lane bank.now at) []) }
{
    // By number: it is every STEP-th byte of a word that is read.
    for k in 0..8 / STEP {
        note_entries(notes, picture, bank[8 * at + STEP * k]);
    }
    note_word::<STEP>(notes, at);
}

// So many words from one on, which wrap at the palette.
#[tactic(auto, using(crate::proofs::Notes::walked), unfolding(crate::specs::Words::index_words))]
pub(crate) fn note_index_words<const STEP: usize>(
    bank: &[u8; Bank::SIZE],
    notes: &mut [u8; Bank::SIZE],
    picture: Picture,
    first: usize,
    words: usize,
)
    requires step_bound { (0 < STEP) × (STEP ≤ 2) }
    requires words_bound { first + words ≤ 2097152 }
    ensures { notes.new ≡ noted notes.old
        (trail (index_words STEP (tile_of picture.tile) picture.lane bank.now first words) []) }
{
    for w in 0..words {
        note_index_word::<STEP>(bank, notes, picture, (first + w) % HALF_WORDS);
    }
}

// Row y of a plain picture as far as its indices fill whole words; the answer is how many do. None of format 1, whose picture is the
// lookup.
pub(crate) fn note_whole_indices(
    bank: &[u8; Bank::SIZE],
    notes: &mut [u8; Bank::SIZE],
    picture: Picture,
    y: u32,
) -> u32
    requires { 2 ≤ picture.tlut }
    ensures upper_bound { result ≤ picture.tile.width }
    ensures notes_after { let t = tile_of picture.tile in
        notes.new ≡ noted notes.old
        (trail (up_to result (λ x. texel t picture.tlut picture.lane (odd y) (row_start t y + column t picture.tlut x) x)) bank.now) }
{
    if picture.tile.fmt == 1 {
        return 0;
    }
    let row = row_words(picture, y);
    if 2 <= picture.tile.siz {
        note_index_words::<2>(bank, notes, picture, row.first, row.words);
    } else {
        note_index_words::<1>(bank, notes, picture, row.first, row.words);
    }
    row.texels
}
