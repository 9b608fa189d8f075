// The first reason of one word of a span. A reason is a byte of the map, and 0 is the rules' none.
ghost use Rattle.std.specs.Prelude.{true, ◌≡◌, ◌*◌, ◌<◌};
ghost use Rattle.rules.specs.Reach.{or_else, first_reason};
ghost use Rattle.reach.specs.Span.{places_of, place_reached, word_reached};

use crate::span::Span;
use tmem::bank::Bank;

// No place of word w has one, nor an address that a place stands for. All bytes are tested at once.
fn is_clear(reasons: &[u8; Bank::REASONS_SIZE], span: Span, w: usize) -> bool
    requires { 8 * w < span.bytes }
    ensures { result ≡ true → first_reason reasons.now (word_reached span w) ≡ 0 }
{
    span.is_zero(w, span.word(w).eight(reasons))
}

// A reason where there is one, else another.
fn or_else(reason: u8, other: u8) -> u8
    ensures { result ≡ or_else reason other }
{
    if reason == 0 { other } else { reason }
}

// The reason at place k of the word, or where it has none, at the address that the place stands for.
pub(crate) fn place_reason(reasons: &[u8; Bank::REASONS_SIZE], span: Span, w: usize, k: usize) -> u8
    requires { (8 * w < span.bytes) × (k < places_of span w) }
    ensures { result ≡ first_reason reasons.now (place_reached span w k) }
{
    let word = span.word(w);
    let at = 8 * word.at + span.byte(k);
    if word.twice {
        return or_else(reasons[at], reasons[at + Bank::PALETTE_BASE]);
    }
    reasons[at]
}

// The first reason of the word's places. By a loop, for the reason that rows.rt gives.
fn each_place(reasons: &[u8; Bank::REASONS_SIZE], span: Span, w: usize) -> u8
    requires { 8 * w < span.bytes }
    ensures { result ≡ first_reason reasons.now (word_reached span w) }
{
    let places = span.places(w);
    for k in 0..places {
        let reason = place_reason(reasons, span, w, k);
        if reason != 0 {
            return reason;
        }
    }
    0
}

// The first reason of word w, 0 for none. Most words have none, which their bytes say at once; the others are gone through place by
// place.
pub(crate) fn word_reason(reasons: &[u8; Bank::REASONS_SIZE], span: Span, w: usize) -> u8
    requires { 8 * w < span.bytes }
    ensures { result ≡ first_reason reasons.now (word_reached span w) }
{
    if is_clear(reasons, span, w) {
        return 0;
    }
    each_place(reasons, span, w)
}
