// Spans of addresses, word by word: a row of a tile, all that a lookup reaches, or its palette.
ghost use Rattle.std.specs.Prelude.{true, cond, ◌≡◌, ℕ, ◌+◌, ◌*◌, ◌-◌, ◌^◌, ◌<◌, ◌≤◌, min};
ghost use Rattle.std.specs.Int.Bits.{bit_and};
ghost use Rattle.rules.specs.Base.{tab};
ghost use Rattle.rules.specs.Reach.{reach_whole, palette_order};
ghost use Rattle.rules.specs.Sampling.{is_rgba32};
ghost use Rattle.rules.specs.Tile.{bank_words, palette_base};
ghost use Rattle.rdp.specs.View.{tile_of};
ghost use Rattle.reach.specs.Span.{most_words, lower, both, part_of, words_of, reached, word_count, word_in};
ghost use Rattle.reach.specs.Span.{places_of, byte_of, bits_in, lanes_in};

use crate::tile::TileInMode;
use crate::word::Word;
use rdp::tile::TileDescriptor;
use rdp::units;
use rdp::units::WordAddr;
use tmem::bank::Bank;

// The word at which the upper half starts, the palette's.
const UPPER: u32 = Bank::PALETTE_BASE as u32 / 8;

// Every second bit of a byte, from the lowest on.
const EVEN_BITS: u8 = 0x55;

// Every second byte of eight.
const EVEN_BYTES: u64 = 0x00ff_00ff_00ff_00ff;

// The pair (0,3), whose texels lie in both halves of the bank.
fn is_rgba32(tile: TileDescriptor) -> bool
    ensures { result ≡ is_rgba32 tile.fmt tile.siz }
{
    (tile.fmt == 0) & (tile.siz == 3)
}

// The lowest bits, eight at most. (To be one function with the next it would need a trait with two constants. A shift by the smaller
// of two numbers was slower: it was made of each word, also of those that have nothing.)
fn first_bits(count: usize) -> u8
    ensures { result ≡ 2 ^ min count 8 - 1 }
{
    if count < 8 {
        (1u8 << count) - 1
    } else {
        u8::MAX
    }
}

// All bits of the lowest bytes, eight at most.
fn first_bytes(count: usize) -> u64
    ensures { result ≡ 2 ^ (8 * min count 8) - 1 }
{
    if count < 8 {
        (1u64 << 8 * count) - 1
    } else {
        u64::MAX
    }
}

// Where a span's addresses are: in the whole bank, in the lower half alone, or each in the lower half and standing for one in the upper.
#[derive(Clone, Copy)]
pub(crate) enum Part {
    Whole,
    Lower,
    Both,
}

impl Part {
    // That of a tile.
    pub(crate) fn of(asked: TileInMode) -> Part
        ensures { result ≡ part_of (tile_of asked.tile) asked.tlut }
    {
        if 2 <= asked.tlut {
            return Part::Lower;
        }
        if is_rgba32(asked.tile) {
            Part::Both
        } else {
            Part::Whole
        }
    }

    // The words of the bank, or of its lower half.
    fn words(self) -> usize
        ensures value { result ≡ words_of (lower self) }
        ensures result_nonzero { (0 < result) × (result ≤ bank_words) }
    {
        match self {
            Part::Whole => Bank::SIZE / 8,
            Part::Lower | Part::Both => Bank::PALETTE_BASE / 8,
        }
    }

    // Each address stands for one more.
    fn is_both(self) -> bool
        ensures { result ≡ both self }
    {
        match self {
            Part::Whole | Part::Lower => false,
            Part::Both => true,
        }
    }
}

// The bytes from the start of a word on, wrapped at the end of their part of the bank. Where it is `sparse` every second one alone is
// reached, and where it is `odd` the halves of a word change places.
#[derive(Clone, Copy)]
pub(crate) struct Span {
    pub(crate) first: WordAddr,
    pub(crate) bytes: u32,
    pub(crate) odd: bool,
    pub(crate) sparse: bool,
    pub(crate) part: Part,
}

impl Span {
    // All that a lookup reaches: every address below the modulus.
    pub(crate) fn whole(asked: TileInMode) -> Span
        ensures { reached result ≡ reach_whole (tile_of asked.tile) asked.tlut }
    {
        let part = Part::of(asked);
        Span {
            first: WordAddr(0),
            bytes: 8 * part.words() as u32,
            odd: false,
            sparse: false,
            part,
        }
    }

    // Bytes of the upper half in their order, from one of its words on.
    fn upper(word: u32, bytes: u32) -> Span
        requires { 8 * word + bytes ≤ palette_base }
        ensures { reached result ≡ tab bytes (λ i. palette_base + 8 * word + i) }
    {
        Span {
            first: WordAddr(UPPER + word),
            bytes,
            odd: false,
            sparse: false,
            part: Part::Whole,
        }
    }

    // The palette in its order: the tile's own where an index has four bits, else all that the upper half has.
    pub(crate) fn palette(asked: TileInMode) -> Span
        ensures { (mode : ℕ) → 2 ≤ mode → reached result ≡ palette_order (tile_of asked.tile) mode }
    {
        if asked.tile.siz == 0 {
            return Span::upper(16 * asked.tile.palette, 128);
        }
        Span::upper(0, (Bank::SIZE - Bank::PALETTE_BASE) as u32)
    }

    // How many words it has, the last one whole or not.
    pub(crate) fn words(self) -> usize
        ensures value { result ≡ word_count self }
        ensures upper_bound { result ≤ most_words }
    {
        (self.bytes as usize + 7) / 8
    }

    // The word that is w words on.
    pub(crate) fn word(self, w: usize) -> Word
        requires { w ≤ most_words }
        ensures { (result.at ≡ word_in self w) × (result.twice ≡ both self.part) }
    {
        Word {
            at: (self.first.0 as usize + w) % self.part.words(),
            twice: self.part.is_both(),
        }
    }

    // How many bytes it has from word w on.
    fn rest(self, w: usize) -> usize
        requires { 8 * w < self.bytes }
        ensures { result ≡ self.bytes - 8 * w }
    {
        self.bytes as usize - 8 * w
    }

    // The bits of those of its bytes that are reached.
    pub(crate) fn bits(self, w: usize) -> u8
        requires { 8 * w < self.bytes }
        ensures { result ≡ bits_in self w }
    {
        let first = first_bits(self.rest(w));
        let bits = if self.odd {
            first.rotate_left(4)
        } else {
            first
        };
        if self.sparse { bits & EVEN_BITS } else { bits }
    }

    // Of a number's bytes those that are reached, where every second one alone is.
    fn reached_of(self, bytes: u64) -> u64
        ensures { result ≡ cond self.sparse (bit_and bytes 71777214294589695) bytes }
    {
        if self.sparse {
            bytes & EVEN_BYTES
        } else {
            bytes
        }
    }

    // All bits of those bytes, where the eight bytes of the word are one number. A whole word, as most are, has no halves to change.
    // (Without a test for it each word was shifted and turned, and the question took two thirds more time.)
    pub(crate) fn lanes(self, w: usize) -> u64
        requires { 8 * w < self.bytes }
        ensures { result ≡ lanes_in self w }
    {
        let rest = self.rest(w);
        if 8 <= rest {
            return self.reached_of(u64::MAX);
        }
        let first = first_bytes(rest);
        let bytes = if self.odd {
            first.rotate_left(32)
        } else {
            first
        };
        self.reached_of(bytes)
    }

    // Those bytes are zero in such a number. Most numbers are zero whole, which is tested first.
    pub(crate) fn is_zero(self, w: usize, eight: u64) -> bool
        requires { 8 * w < self.bytes }
        ensures { result ≡ true → bit_and (lanes_in self w) eight ≡ 0 }
    {
        if eight == 0 {
            return true;
        }
        self.lanes(w) & eight == 0
    }

    // How many places word w has.
    pub(crate) fn places(self, w: usize) -> usize
        requires { 8 * w < self.bytes }
        ensures { result ≡ places_of self w }
    {
        // Not by `min`: the compiler made it of each word, also of those that have nothing, and the question took a third more time.
        let rest = self.rest(w);
        let bytes = if rest < 8 { rest } else { 8 };
        if self.sparse {
            bytes.div_ceil(2)
        } else {
            bytes
        }
    }

    // Which of its bytes place k is.
    pub(crate) fn byte(self, k: usize) -> usize
        requires { k < 8 }
        ensures { result ≡ byte_of self k }
    {
        let byte = if self.sparse { 2 * k } else { k };
        units::swap_odd_line(byte, self.odd)
    }
}
