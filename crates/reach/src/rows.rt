// The first reason of a span, and of the rows of a tile. Rows of one word at most are asked four at a time. A reason is a byte of the
// map, and 0 is the rules' none.
ghost use Rattle.std.specs.Prelude.{cond, true, ◌≡◌, ◌+◌, ◌-◌, ◌*◌, ◌%◌, ◌<◌, ◌≤◌, min};
ghost use Rattle.rules.specs.Base.{tab, concat};
ghost use Rattle.rules.specs.Reach.{reach_row, reach_plain, first_reason};
ghost use Rattle.rdp.specs.View.{tile_of};
ghost use Rattle.rules.specs.Tile.{bank_size, bank_words};
ghost use Rattle.reach.specs.Words.{ors};
ghost use Rattle.reach.specs.Span.{reached, word_count, eight_in, row_lanes, BlankWords, BlankFours};

use crate::reason;
use crate::row::Rows;
use crate::span::Span;
use crate::tile::TileInMode;
use tmem::bank::Bank;

// How many words of a span have nothing, from its first on: neither in the bytes that it reaches nor in those beside them. (By one loop
// for this and the reason, the code of a blank word had 14 instructions and not 8. All loops here leave at the first that has something:
// a chain over the words of a span took twice the time in has_load, whose loop is the same.)
fn blank_words(reasons: &[u8; Bank::REASONS_SIZE], span: Span) -> usize
    ensures { (result ≤ word_count span) × BlankWords reasons.now span result }
{
    let words = span.words();
    for w in 0..words {
        if span.word(w).eight(reasons) != 0 {
            return w;
        }
    }
    words
}

// The first reason of a span, 0 for none. Most words have nothing, which is asked first. (By a call, long rows without reasons took
// from a quarter more instructions to 2.4 times as many.)
#[inline(always)]
pub(crate) fn span_reason(reasons: &[u8; Bank::REASONS_SIZE], span: Span) -> u8
    ensures { result ≡ first_reason reasons.now (reached span) }
{
    let blank = blank_words(reasons, span);
    for w in blank..span.words() {
        let reason = reason::word_reason(reasons, span, w);
        if reason != 0 {
            return reason;
        }
    }
    0
}

// That of a row. A short one, of a word at most, has no words to go through. (By its span, a row with a reason took 25 to 60 instructions
// more. Which of the two it is, is told apart at compile time: each then has one caller, into which it is compiled, and the rows are not
// copied for a call.)
fn row_reason<const SHORT: bool>(reasons: &[u8; Bank::REASONS_SIZE], rows: Rows, y: usize) -> u8
    requires y_bound { y < bank_size }
    requires short { SHORT ≡ true → rows.bytes ≤ 8 }
    ensures { result ≡ first_reason reasons.now (reach_row (tile_of rows.asked.tile) rows.asked.tlut y) }
{
    if SHORT {
        return reason::word_reason(reasons, rows.row(y), 0);
    }
    span_reason(reasons, rows.row(y))
}

// That of some rows, from one up to another.
fn some_rows<const SHORT: bool>(
    reasons: &[u8; Bank::REASONS_SIZE],
    rows: Rows,
    from: usize,
    to: usize,
) -> u8
    requires within { (from ≤ to) × (to ≤ bank_size) }
    requires short { SHORT ≡ true → rows.bytes ≤ 8 }
    ensures { result
        ≡ first_reason reasons.now (concat (tab (to - from) (λ k. reach_row (tile_of rows.asked.tile) rows.asked.tlut (from + k)))) }
{
    for y in from..to {
        let reason = row_reason::<SHORT>(reasons, rows, y);
        if reason != 0 {
            return reason;
        }
    }
    0
}

// The number of odd rows, or of even ones.
fn of_rows(odd: bool, uneven: u64, even: u64) -> u64
    ensures { result ≡ cond odd uneven even }
{
    if odd { uneven } else { even }
}

// A fold in place of this loop and the one of four_whole would have the same body in a closure, and be no plainer.
// What the words of four rows have in the bytes that their rows reach, in one number. `one` and `other` are rows 0 and 1: all even rows
// reach the same bytes of their words, and all odd ones. The first of the four is even, and `from` words on from row 0.
fn four_words(
    reasons: &[u8; Bank::REASONS_SIZE],
    one: Span,
    other: Span,
    line: usize,
    from: usize,
) -> u64
    requires bounds { (0 < one.bytes) × (0 < other.bytes) × (line < bank_words) }
    requires bank_words_bound { from + 4 * bank_words ≤ bank_size * bank_words }
    ensures { result ≡ ors 4 (λ k. row_lanes reasons.now one other line from k) }
{
    let even = one.lanes(0);
    let uneven = other.lanes(0);
    let mut all = 0u64;
    for k in 0..4 {
        all |= of_rows(k % 2 == 1, uneven, even) & one.word(from + k * line).eight(reasons);
    }
    all
}

// That of four rows of one word each, from row y on, or of those there are: most have none, which is asked of all four at once.
fn four_rows(reasons: &[u8; Bank::REASONS_SIZE], rows: Rows, y: usize, count: usize) -> u8
    requires { (rows.bytes ≤ 8) × (y % 2 ≡ 0) × (y + 4 ≤ bank_size) × (y ≤ count) × (count ≤ bank_size) }
    ensures { result
        ≡ first_reason reasons.now
        (concat (tab (min (y + 4) count - y) (λ k. reach_row (tile_of rows.asked.tile) rows.asked.tlut (y + k)))) }
{
    let line = rows.line();
    if four_words(reasons, rows.row(0), rows.row(1), line, y * line) == 0 {
        return 0;
    }
    some_rows::<true>(reasons, rows, y, (y + 4).min(count))
}

// The words of four rows in one number, each whole: the bytes that its row reaches, and those beside them.
fn four_whole(reasons: &[u8; Bank::REASONS_SIZE], one: Span, line: usize, from: usize) -> u64
    requires { (line < bank_words) × (from + 4 * bank_words ≤ bank_size * bank_words) }
    ensures { result ≡ ors 4 (λ k. eight_in reasons.now one (from + k * line)) }
{
    let mut all = 0u64;
    for k in 0..4 {
        all |= one.word(from + k * line).eight(reasons);
    }
    all
}

// How many fours of rows have nothing in their words, from row 0 on.
fn blank_fours(reasons: &[u8; Bank::REASONS_SIZE], one: Span, line: usize, fours: usize) -> usize
    requires { (line < bank_words) × (4 * fours ≤ bank_size) }
    ensures { (result ≤ fours) × BlankFours reasons.now one line result }
{
    for i in 0..fours {
        if four_whole(reasons, one, line, 4 * i * line) != 0 {
            return i;
        }
    }
    fours
}

// That of rows of one word each. Most words have nothing, which is asked first: only after that the bytes that the rows reach are told
// from those beside them.
fn short_rows(reasons: &[u8; Bank::REASONS_SIZE], rows: Rows, count: usize) -> u8
    requires { (rows.bytes ≤ 8) × (count ≤ bank_size) }
    ensures { result ≡ first_reason reasons.now (concat (tab count (reach_row (tile_of rows.asked.tile) rows.asked.tlut))) }
{
    let fours = count.div_ceil(4);
    let blank = blank_fours(reasons, rows.row(0), rows.line(), fours);
    for i in blank..fours {
        let reason = four_rows(reasons, rows, 4 * i, count);
        if reason != 0 {
            return reason;
        }
    }
    0
}

// That of all rows, up to their period. The first address is asked before all others: where a rejected load stored the whole tile, its
// reason is there.
pub(crate) fn rows_reason(reasons: &[u8; Bank::REASONS_SIZE], asked: TileInMode) -> u8
    ensures { result ≡ first_reason reasons.now (reach_plain (tile_of asked.tile) asked.tlut) }
{
    let rows = Rows::of(asked);
    let at_once = reason::place_reason(reasons, rows.row(0), 0, 0);
    if at_once != 0 {
        return at_once;
    }
    let count = rows.count();
    if rows.bytes <= 8 {
        return short_rows(reasons, rows, count);
    }
    some_rows::<false>(reasons, rows, 0, count)
}
