// Whether a tile reaches a byte that a load wrote: a search of its reach in order, which stops at the first meeting.
ghost use Rattle.std.specs.Prelude.{◌≡◌};
ghost use Rattle.rules.specs.Base.{any, is_written};
ghost use Rattle.rules.specs.Calls.{has_load_call};
ghost use Rattle.rules.specs.Reach.{reach_plain, has_load};
ghost use Rattle.rdp.specs.View.{tile_of, yes_answered};
ghost use Rattle.reach.specs.Span.{reached};

use crate::refused;
use crate::row::Rows;
use crate::span::Span;
use crate::tile::TileInMode;
use rdp::refusal::Refusal;
use rdp::tile::TileDescriptor;
use tile_sampling::sampling::TileSampling;
use tmem::bank::Bank;

// An address of a span is written. By a loop, as the rows are: a chain reads the whole span from memory at once, which waits for its
// fields to be stored, and took twice the time.
fn span_meets(written: &[u8; Bank::WRITTEN_SIZE], span: Span) -> bool
    ensures { result ≡ any (is_written written.now) (reached span) }
{
    for w in 0..span.words() {
        if span.word(w).meets(written, span.bits(w)) {
            return true;
        }
    }
    false
}

// One of a row, up to the period of rows.
fn rows_meet(written: &[u8; Bank::WRITTEN_SIZE], asked: TileInMode) -> bool
    ensures { result ≡ any (is_written written.now) (reach_plain (tile_of asked.tile) asked.tlut) }
{
    let rows = Rows::of(asked);
    for y in 0..rows.count() {
        if span_meets(written, rows.row(y)) {
            return true;
        }
    }
    false
}

// The reach and the map meet.
fn reach_meets(written: &[u8; Bank::WRITTEN_SIZE], asked: TileInMode) -> bool
    ensures { result ≡ has_load (tile_of asked.tile) asked.tlut written.now }
{
    let sampling = TileSampling::from_tile(asked.tile, asked.tlut);
    if sampling.lookup {
        return span_meets(written, Span::whole(asked));
    }
    rows_meet(written, asked)
}

// Whether a load wrote a byte that the tile reaches, or the refusal.
pub fn tile_has_load(tile: TileDescriptor, tlut: u32, written: &[u8]) -> Result<bool, Refusal>
    ensures { yes_answered result ≡ has_load_call (tile_of tile) tlut written.now }
{
    let asked = refused::check_map(written, Bank::WRITTEN_SIZE, tile, tlut)?;
    Ok(reach_meets(written.try_into().unwrap(), asked))
}
