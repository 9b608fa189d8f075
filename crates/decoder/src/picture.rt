// The pictures of a tile: the plain one and the lookup, each alone or with the trail of its reads.
ghost use Rattle.std.specs.Prelude.{◌≡◌, [], ◌∷◌};
ghost use Rattle.rules.specs.Calls.{picture_call, sample_tile_call, sample_tile_observed_call};
ghost use Rattle.rules.specs.Calls.{sampling_lookup_call, sampling_lookup_observed_call};
ghost use Rattle.rdp.specs.View.{tile_of, answered};
ghost use Rattle.decoder.specs.Asked.{reading_by};
ghost use Rattle.decoder.specs.Sizes.{texels_by};

use crate::bank_decoder::picture_of;
use rdp::refusal::Refusal;
use rdp::tile::TileDescriptor;

// The picture alone. A trail that nobody asked for is a byte of its own.
fn picture_alone(
    bank: &[u8],
    tile: TileDescriptor,
    tlut_fmt: u32,
    lane: u32,
    lookup: bool,
    out: &mut [u8],
) -> Result<u32, Refusal>
    ensures { answered result (out.new ∷ [])
        ≡ picture_call (reading_by lookup (tile_of tile) tlut_fmt lane) (texels_by lookup (tile_of tile)) bank.now
        (tile_of tile) tlut_fmt lane out.old }
{
    let mut none = [0u8; 1];
    picture_of(bank, tile, tlut_fmt, lane, lookup, false, out, &mut none)
}

// The plain picture of a tile, whatever its flag.
pub fn sample_tile_lane(
    bank: &[u8],
    tile: TileDescriptor,
    tlut_fmt: u32,
    lane: u32,
    out: &mut [u8],
) -> Result<u32, Refusal>
    ensures { answered result (out.new ∷ [])
        ≡ sample_tile_call bank.now (tile_of tile) tlut_fmt lane out.old }
{
    picture_alone(bank, tile, tlut_fmt, lane, false, out)
}

// The plain picture of a tile, with the trail of its reads.
pub fn sample_tile_lane_observed(
    bank: &[u8],
    tile: TileDescriptor,
    tlut_fmt: u32,
    lane: u32,
    out: &mut [u8],
    seen: &mut [u8],
) -> Result<u32, Refusal>
    ensures { answered result (out.new ∷ seen.new ∷ [])
        ≡ sample_tile_observed_call bank.now (tile_of tile) tlut_fmt lane out.old seen.old }
{
    picture_of(bank, tile, tlut_fmt, lane, false, true, out, seen)
}

// The lookup of a tile: even row then odd, x parity 0 then 1, rel 0 to 4,095.
pub fn sampling_lookup_lane(
    bank: &[u8],
    tile: TileDescriptor,
    tlut_fmt: u32,
    lane: u32,
    out: &mut [u8],
) -> Result<u32, Refusal>
    ensures { answered result (out.new ∷ [])
        ≡ sampling_lookup_call bank.now (tile_of tile) tlut_fmt lane out.old }
{
    picture_alone(bank, tile, tlut_fmt, lane, true, out)
}

// The lookup of a tile, with the trail of its reads.
pub fn sampling_lookup_lane_observed(
    bank: &[u8],
    tile: TileDescriptor,
    tlut_fmt: u32,
    lane: u32,
    out: &mut [u8],
    seen: &mut [u8],
) -> Result<u32, Refusal>
    ensures { answered result (out.new ∷ seen.new ∷ [])
        ≡ sampling_lookup_observed_call bank.now (tile_of tile) tlut_fmt lane out.old seen.old }
{
    picture_of(bank, tile, tlut_fmt, lane, true, true, out, seen)
}
