// The reach of a tile: every address that it can read, marked in a map in the order of the rule's list.
ghost use Rattle.std.specs.Prelude.{[], ◌∷◌, ◌≡◌};
ghost use Rattle.rules.specs.Base.{marks};
ghost use Rattle.rules.specs.Calls.{reach_call};
ghost use Rattle.rules.specs.Reach.{reach_plain, reach_map};
ghost use Rattle.rdp.specs.View.{tile_of, refusal_answered};
ghost use Rattle.reach.specs.Span.{reached};

use crate::refused;
use crate::row::Rows;
use crate::span::Span;
use crate::tile::TileInMode;
use crate::word::REACH_SIZE;
use rdp::refusal::Refusal;
use rdp::tile::TileDescriptor;
use tile_sampling::sampling::TileSampling;

// The addresses of a span are marked, word by word.
fn mark_span(map: &mut [u8; REACH_SIZE], span: Span)
    ensures { map.new ≡ marks map.old (reached span) }
{
    for w in 0..span.words() {
        span.word(w).mark(map, span.bits(w));
    }
}

// Those of every row, up to the period of rows.
fn mark_rows(map: &mut [u8; REACH_SIZE], asked: TileInMode)
    ensures { map.new ≡ marks map.old (reach_plain (tile_of asked.tile) asked.tlut) }
{
    let rows = Rows::of(asked);
    for y in 0..rows.count() {
        mark_span(map, rows.row(y));
    }
}

// The map has the marks of the reach and no others.
fn mark_reach(map: &mut [u8; REACH_SIZE], asked: TileInMode)
    ensures { map.new ≡ reach_map (tile_of asked.tile) asked.tlut }
{
    map.fill(0);
    let sampling = TileSampling::from_tile(asked.tile, asked.tlut);
    if sampling.lookup {
        mark_span(map, Span::whole(asked));
    } else {
        mark_rows(map, asked);
    }
}

// The reach map of a tile, overwritten whole, or the refusal with the map as it was lent.
pub fn reach(tile: TileDescriptor, tlut: u32, map: &mut [u8]) -> Result<(), Refusal>
    ensures { refusal_answered result (map.new ∷ []) ≡ reach_call (tile_of tile) tlut map.old }
{
    let asked = refused::check_map(map, REACH_SIZE, tile, tlut)?;
    mark_reach(map.as_mut_array().unwrap(), asked);
    Ok(())
}
