// The key cut out of the bank by the notes of what was read.
ghost use Rattle.std.specs.Prelude.{◌≡◌, List, ℕ, ◌+◌, ◌≤◌, length, get_or};
ghost use Rattle.rules.specs.Base.{distinct};
ghost use Rattle.rules.specs.Key.{kept};
ghost use Rattle.rules.specs.Tile.{bank_size, fresh_bank};
ghost use Rattle.key.specs.Notes.{Notes, kept_by, part_size, KeySoFar};

use tmem::bank::Bank;

// So many bytes of the bank are cut, or compared, without a look at each: a part of it.
pub(crate) const PART: usize = 64;

// The key of a picture that reads nothing: every byte is zero. A caller's key starts as this.
pub fn empty_key() -> [u8; Bank::SIZE]
    ensures { result ≡ fresh_bank }
{
    [0u8; Bank::SIZE]
}

// A noted byte is kept, any other is zero.
pub(crate) fn kept_byte(byte: u8, note: u8) -> u8
    ensures { result ≡ kept_by byte note }
{
    if note == 1 { byte } else { 0 }
}

// A part of the key, and how many of its bytes are kept. A byte holds the count, so that the processor adds many at once.
// By index: bank, notes and key go side by side, and a zip of three is no plainer.
fn cut_part(
    bank: &[u8; Bank::SIZE],
    notes: &[u8; Bank::SIZE],
    key: &mut [u8; Bank::SIZE],
    from: usize,
) -> u8
    requires by_index { (i : ℕ) → get_or notes.now i 0 ≤ 1 }
    requires part_size_bound { from + part_size ≤ bank_size }
    ensures upper_bound { result ≤ part_size }
    ensures by_index_2 { (l : List ℕ) → Notes notes.now l → KeySoFar bank.now l from key.old
        → KeySoFar bank.now l (from + part_size) key.new × (distinct from l + result ≡ distinct (from + part_size) l) }
{
    let mut count = 0u8;
    // By index: three arrays stand side by side, and one of them is written.
    for k in 0..PART {
        let a = from + k;
        key[a] = kept_byte(bank[a], notes[a]);
        count += notes[a];
    }
    count
}

// Noted bytes of the bank are kept, all others are zero, and the kept ones are counted.
// By the part's index, since a part is cut by index.
pub(crate) fn cut(
    bank: &[u8; Bank::SIZE],
    notes: &[u8; Bank::SIZE],
    key: &mut [u8; Bank::SIZE],
) -> u32
    requires by_index { (i : ℕ) → get_or notes.now i 0 ≤ 1 }
    ensures { (l : List ℕ) → Notes notes.now l
        → (key.new ≡ kept l bank.now) × (result ≡ distinct bank_size l) }
{
    let mut count: u32 = 0;
    // By the part's number, since it is the same part of three arrays.
    for part in 0..Bank::SIZE / PART {
        count += cut_part(bank, notes, key, PART * part) as u32;
    }
    count
}
