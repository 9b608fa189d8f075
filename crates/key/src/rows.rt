// The addresses that a picture reads, noted row by row.
ghost use Rattle.std.specs.Prelude.{◌≡◌, ◌≤◌, min};
ghost use Rattle.rules.specs.Reading.{trail, up_to};
ghost use Rattle.rules.specs.Picture.{plain_row, lookup_row, lookup};
ghost use Rattle.key.specs.Notes.{noted};
ghost use Rattle.rdp.specs.View.{tile_of};

use crate::indices::note_index_words;
use crate::reads::note_texel;
use crate::words::{HALF_WORDS, note_whole_words};
use texdec::pair::Picture;
use tmem::bank::Bank;

// Row y of a plain picture.
fn note_plain_row(bank: &[u8; Bank::SIZE], notes: &mut [u8; Bank::SIZE], picture: Picture, y: u32)
    ensures { notes.new ≡ noted notes.old
        (trail (plain_row (tile_of picture.tile) picture.tlut picture.lane y) bank.now) }
{
    let tile = picture.tile;
    let tlut = picture.tlut;
    let start = tile.row_start(y);
    let odd = y % 2 == 1;
    let from = note_whole_words(bank, notes, picture, y);
    for x in from..tile.width {
        let rel = start + tile.column(tlut, x);
        note_texel(bank, notes, picture, odd, rel, x as usize);
    }
}

// A plain picture. Rows 256 apart read the same bytes, so the first 256 are enough.
#[tactic(auto, using(crate::proofs::Notes::walked))]
pub(crate) fn note_plain(bank: &[u8; Bank::SIZE], notes: &mut [u8; Bank::SIZE], picture: Picture)
    ensures { notes.new ≡ noted notes.old
        (trail (up_to (min picture.tile.height 256) (plain_row (tile_of picture.tile) picture.tlut picture.lane)) bank.now) }
{
    for y in 0..picture.tile.height.min(256) {
        note_plain_row(bank, notes, picture, y);
    }
}

// Row r of a lookup: its row is odd from 2 on, and its column's parity is r's.
#[tactic(auto, using(crate::proofs::Notes::walked), unfolding(rules::specs::Picture::lookup_row))]
fn note_lookup_row(
    bank: &[u8; Bank::SIZE],
    notes: &mut [u8; Bank::SIZE],
    picture: Picture,
    r: usize,
)
    ensures { notes.new ≡ noted notes.old
        (trail (lookup_row (tile_of picture.tile) picture.tlut picture.lane r) bank.now) }
{
    let odd = r / 2 % 2 == 1;
    let parity = r % 2;
    for rel in 0..Bank::SIZE {
        note_texel(bank, notes, picture, odd, rel, parity);
    }
}

// A lookup. Through the lookup table it reads every index byte, in columns of both parities.
#[tactic(auto, using(crate::proofs::Notes::walked, crate::proofs::IndexLaws::lookup_noted), unfolding(rules::specs::Picture::lookup))]
pub(crate) fn note_lookup(bank: &[u8; Bank::SIZE], notes: &mut [u8; Bank::SIZE], picture: Picture)
    ensures { notes.new ≡ noted notes.old
        (trail (lookup (tile_of picture.tile) picture.tlut picture.lane) bank.now) }
{
    if 2 <= picture.tlut {
        note_index_words::<1>(bank, notes, picture, 0, HALF_WORDS);
        return;
    }
    for r in 0..4 {
        note_lookup_row(bank, notes, picture, r);
    }
}
