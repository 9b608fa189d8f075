// A word of the bank and several bits of it at once: set in a map, or looked for in the written record.
ghost use Rattle.std.specs.Prelude.{true, false, ◌≡◌, ℕ, ◌+◌, ◌<◌, ◌≤◌, length};
ghost use Rattle.rules.specs.Tile.{bank_words};
ghost use Rattle.reach.specs.Words.{joined, mark_bit, word_marks, eight_bytes, word_bytes, meets, low_words};
ghost use Rattle.reach.specs.Words.{word_joined, word_meets, word_eight};

use tmem::bank::Bank;

// The bytes of a reach map: a bit for each byte of the bank.
pub(crate) const REACH_SIZE: usize = Bank::SIZE / 8;

// The words of the lower half, which ends where the palette starts.
const LOW_WORDS: usize = Bank::PALETTE_BASE / 8;

// Word `at` of the bank. Where it is `twice` it stands for one in the upper half as well, and is itself in the lower.
#[derive(Clone, Copy)]
pub(crate) struct Word {
    pub(crate) at: usize,
    pub(crate) twice: bool,
    ghost within: { (at < bank_words) × (twice ≡ true → at < low_words) },
}

// Eight bytes as one number, the first lowest.
fn eight_bytes(bytes: &[u8], from: usize) -> u64
    requires { from + 8 ≤ length bytes.now }
    ensures { result ≡ eight_bytes bytes.now from }
{
    u64::from_le_bytes(bytes[from..from + 8].try_into().unwrap())
}

// The bytes of a word's numbers, or-ed together.
#[tactic(auto, unfolding(crate::specs::Words::word_bytes))]
fn word_bytes(written: &[u8; Bank::WRITTEN_SIZE], at: usize) -> u64
    requires { at < bank_words }
    ensures { result ≡ word_bytes written.now at }
{
    eight_bytes(written, 16 * at) | eight_bytes(written, 16 * at + 8)
}

// The bit of an address in the marks of its word, where it is written.
fn mark_bit(written: &[u8; Bank::WRITTEN_SIZE], at: usize, k: usize) -> u8
    requires { (at < bank_words) × (k < 8) }
    ensures { result ≡ mark_bit written.now at k }
{
    let i = 2 * (8 * at + k);
    if written[i] | written[i + 1] == 0 {
        0
    } else {
        1u8 << k
    }
}

// The marks of a word, address by address. (A fold would be no plainer: the one line that it needs is the loop's.)
fn each_mark(written: &[u8; Bank::WRITTEN_SIZE], at: usize) -> u8
    requires { at < bank_words }
    ensures { result ≡ word_marks written.now at }
{
    let mut bits = 0u8;
    for k in 0..8 {
        bits |= mark_bit(written, at, k);
    }
    bits
}

// One of the bits is set in the marks of word `at`.
#[tactic(auto, unfolding(crate::specs::Words::meets))]
fn meets(written: &[u8; Bank::WRITTEN_SIZE], at: usize, bits: u8) -> bool
    requires { at < bank_words }
    ensures { result ≡ meets written.now at bits }
{
    each_mark(written, at) & bits != 0
}

impl Word {
    // The bits are set in its byte of the map, and in that of the word that it stands for.
    #[tactic(auto, unfolding(crate::specs::Words::word_joined, crate::specs::Words::joined))]
    pub(crate) fn mark(self, map: &mut [u8; REACH_SIZE], bits: u8)
        ensures { map.new ≡ word_joined self.twice map.old self.at bits }
    {
        map[self.at] |= bits;
        if self.twice {
            map[self.at + LOW_WORDS] |= bits;
        }
    }

    // Its eight bytes of a map of reasons in one number, with those of the word that it stands for.
    #[tactic(auto, unfolding(crate::specs::Words::word_eight))]
    pub(crate) fn eight(self, reasons: &[u8; Bank::REASONS_SIZE]) -> u64
        ensures { result ≡ word_eight self.twice reasons.now self.at }
    {
        let from = 8 * self.at;
        let own = eight_bytes(reasons, from);
        if self.twice {
            return own | eight_bytes(reasons, from + Bank::PALETTE_BASE);
        }
        own
    }

    // One of the bits is set in its marks, or in those of the word that it stands for.
    #[tactic(auto, unfolding(crate::specs::Words::word_meets))]
    fn either_meets(self, written: &[u8; Bank::WRITTEN_SIZE], bits: u8) -> bool
        ensures { result ≡ word_meets self.twice written.now self.at bits }
    {
        if self.twice {
            return meets(written, self.at, bits) | meets(written, self.at + LOW_WORDS, bits);
        }
        meets(written, self.at, bits)
    }

    // No address of it has a number, nor one of the word that it stands for.
    fn is_blank(self, written: &[u8; Bank::WRITTEN_SIZE]) -> bool
        ensures { result ≡ true → (bits : ℕ) → word_meets self.twice written.now self.at bits ≡ false }
    {
        if self.twice {
            return (word_bytes(written, self.at) == 0)
                & (word_bytes(written, self.at + LOW_WORDS) == 0);
        }
        word_bytes(written, self.at) == 0
    }

    // One of the bits is set in its marks. Most words that are looked at are blank, which their bytes say at once; the others are left
    // to a function of their own, so that this one is small enough to be compiled into the loop that calls it.
    pub(crate) fn meets(self, written: &[u8; Bank::WRITTEN_SIZE], bits: u8) -> bool
        ensures { result ≡ word_meets self.twice written.now self.at bits }
    {
        if self.is_blank(written) {
            return false;
        }
        self.either_meets(written, bits)
    }
}
