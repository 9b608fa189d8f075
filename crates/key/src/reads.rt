// The addresses that one texel reads, noted a byte each. Nothing is decoded.
ghost use Rattle.std.specs.Prelude.{◌≡◌, List, [], ◌∷◌, ℕ, ◌+◌, ◌*◌, ◌<◌, ◌≤◌};
ghost use Rattle.rules.specs.Texdec.{format_of};
ghost use Rattle.rules.specs.Tile.{bank_size};
ghost use Rattle.rules.specs.Reading.{trail};
ghost use Rattle.rules.specs.Picture.{swap_odd, index, entry_at, direct, paletted, texel};
ghost use Rattle.key.specs.Notes.{no_notes, noted};
ghost use Rattle.rdp.specs.View.{tile_of};

use rdp::units::{ByteAddr, swap_odd_line};
use texdec::pair::Picture;
use texdec::palette::{index_part, palette_index};
use tmem::bank::Bank;

// Where the byte at rel stands, before it wraps at the end of the bank or of its low half.
fn placed(base: ByteAddr, odd: bool, rel: usize) -> ByteAddr
    requires base_lt_bank_size { base.0 < bank_size }
    requires rel_bound { rel ≤ 2097152 }
    ensures { result.0 ≡ base.0 + swap_odd odd rel }
{
    ByteAddr(base.0 + swap_odd_line(rel, odd))
}

// No address is noted.
pub(crate) fn no_notes() -> [u8; Bank::SIZE]
    ensures { result ≡ no_notes }
{
    [0u8; Bank::SIZE]
}

// Two addresses are noted.
#[tactic(auto, unfolding(crate::specs::Notes::noted))]
pub(crate) fn note_two(notes: &mut [u8; Bank::SIZE], a: usize, b: usize)
    requires { (a < bank_size) × (b < bank_size) }
    ensures { notes.new ≡ noted notes.old (a ∷ b ∷ []) }
{
    notes[a] = 1;
    notes[b] = 1;
}

// A texel without a lookup table: one byte, two, or for (0,3) two in each half of the bank.
fn note_direct(notes: &mut [u8; Bank::SIZE], picture: Picture, odd: bool, rel: usize)
    requires direct_mode { picture.tlut < 2 }
    requires rel_bound { rel < 2097152 }
    ensures { (x : ℕ) (bank : List ℕ) → notes.new ≡ noted notes.old
        (trail (direct (format_of picture.tile.fmt picture.tile.siz) (8 * picture.tile.tmem_addr.0) picture.tile.palette odd rel x) bank) }
{
    let tile = picture.tile;
    let base = tile.tmem_addr.bytes();
    if (tile.fmt == 0) & (tile.siz == 3) {
        let low = placed(base, odd, rel).0 % Bank::PALETTE_BASE;
        let next = placed(base, odd, rel + 1).0 % Bank::PALETTE_BASE;
        note_two(notes, low, next);
        note_two(notes, low + Bank::PALETTE_BASE, next + Bank::PALETTE_BASE);
        return;
    }
    let at = placed(base, odd, rel).0 % Bank::SIZE;
    if tile.siz < 2 {
        notes[at] = 1;
        return;
    }
    let next = placed(base, odd, rel + 1).0 % Bank::SIZE;
    note_two(notes, at, next);
}

// The address of the entry that a byte stands for.
pub(crate) fn entry_at(picture: Picture, x: usize, byte: u8) -> ByteAddr
    ensures result_value { result.0 ≡ entry_at (index (tile_of picture.tile) x byte) picture.lane }
    ensures result_bound { result.0 + 1 < bank_size }
{
    let tile = picture.tile;
    let part = index_part(tile.fmt, tile.siz);
    let index = palette_index(part, tile.palette, x, byte);
    Bank::entry_addr(index as u8, picture.lane)
}

// A texel through the lookup table: its index byte, and the two bytes of the entry.
#[tactic(auto, unfolding(crate::specs::Notes::noted, rules::specs::Picture::paletted, rules::specs::Reading::trail))]
fn note_paletted(
    bank: &[u8; Bank::SIZE],
    notes: &mut [u8; Bank::SIZE],
    picture: Picture,
    odd: bool,
    rel: usize,
    x: usize,
)
    requires { rel < 2097152 }
    ensures { notes.new ≡ noted notes.old
        (trail (paletted (tile_of picture.tile) picture.tlut picture.lane odd rel x) bank.now) }
{
    let word = picture.tile.tmem_addr;
    let at = placed(word.bytes(), odd, rel).0 % Bank::PALETTE_BASE;
    let entry = entry_at(picture, x, bank[at]).0;
    notes[at] = 1;
    note_two(notes, entry, entry + 1);
}

// What one texel reads. That rel is inside a row's longest is said where it is used: a type of its own would be plainer for none.
#[tactic(auto, using(crate::proofs::Notes::noted_by_table, crate::proofs::Notes::noted_direct))]
pub(crate) fn note_texel(
    bank: &[u8; Bank::SIZE],
    notes: &mut [u8; Bank::SIZE],
    picture: Picture,
    odd: bool,
    rel: usize,
    x: usize,
)
    requires { rel < 2097152 }
    ensures { notes.new ≡ noted notes.old
        (trail (texel (tile_of picture.tile) picture.tlut picture.lane odd rel x) bank.now) }
{
    if 2 <= picture.tlut {
        note_paletted(bank, notes, picture, odd, rel, x);
    } else {
        note_direct(notes, picture, odd, rel);
    }
}
