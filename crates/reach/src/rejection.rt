// The first reason among the bytes that a tile asks for: a search of its reach in order and then of its palette. A reason is a byte of
// the map, and 0 is the rules' none.
ghost use Rattle.std.specs.Prelude.{◌≡◌};
ghost use Rattle.rules.specs.Calls.{rejection_call};
ghost use Rattle.rules.specs.Reach.{reach, palette_order, first_reason, rejection};
ghost use Rattle.rdp.specs.View.{tile_of, reason_answered};

use crate::span::Span;
use crate::tile::TileInMode;
use crate::{refused, rows};
use rdp::refusal::Refusal;
use rdp::tile::TileDescriptor;
use tile_sampling::sampling::TileSampling;
use tmem::bank::Bank;

// That of the reach.
fn reach_reason(reasons: &[u8; Bank::REASONS_SIZE], asked: TileInMode) -> u8
    ensures { result ≡ first_reason reasons.now (reach (tile_of asked.tile) asked.tlut) }
{
    let sampling = TileSampling::from_tile(asked.tile, asked.tlut);
    if sampling.lookup {
        return rows::span_reason(reasons, Span::whole(asked));
    }
    rows::rows_reason(reasons, asked)
}

// That of the palette, which modes 2 and 3 alone have.
fn palette_reason(reasons: &[u8; Bank::REASONS_SIZE], asked: TileInMode) -> u8
    ensures { result ≡ first_reason reasons.now (palette_order (tile_of asked.tile) asked.tlut) }
{
    if 2 <= asked.tlut {
        return rows::span_reason(reasons, Span::palette(asked));
    }
    0
}

// That of the reach, or where it has none, of the palette.
fn first_reason(reasons: &[u8; Bank::REASONS_SIZE], asked: TileInMode) -> u8
    ensures { result ≡ rejection (tile_of asked.tile) asked.tlut reasons.now }
{
    let reason = reach_reason(reasons, asked);
    if reason != 0 {
        return reason;
    }
    palette_reason(reasons, asked)
}

// The first reason among the bytes that the tile asks for, 0 for none, or the refusal.
pub fn rejection(tile: TileDescriptor, tlut: u32, reasons: &[u8]) -> Result<u8, Refusal>
    ensures { reason_answered result ≡ rejection_call (tile_of tile) tlut reasons.now }
{
    let asked = refused::check_map(reasons, Bank::REASONS_SIZE, tile, tlut)?;
    Ok(first_reason(reasons.try_into().unwrap(), asked))
}
