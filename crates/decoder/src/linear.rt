// The linear decoding of a source, without a bank: texdec.rs has it for each format but RGBA16, which combiner.rs has, and RGBA32.
ghost use Rattle.std.specs.Prelude.{◌≡◌, [], ◌∷◌};
ghost use Rattle.rules.specs.Calls.{linear_tests, linear_call};
ghost use Rattle.rules.specs.Linear.{linear_pair};
ghost use Rattle.rules.specs.Refusal.{first};
ghost use Rattle.rules.specs.Tile.{linear_fields_outside};
ghost use Rattle.rdp.specs.Refused.{refusal_of};
ghost use Rattle.rdp.specs.View.{tile_of, answered};

use crate::format::Format;
use crate::source_rows::put_source_rows;
use rdp::refusal::{Refusal, refuse};
use rdp::tile;
use rdp::tile::TileDescriptor;
use texdec::format::FormatInfo;

// One of the five fields that the decoding takes is outside its range.
fn fields_outside(tile: TileDescriptor) -> bool
    ensures { result ≡ linear_fields_outside (tile_of tile) }
{
    (7 < tile.fmt)
        | (3 < tile.siz)
        | (15 < tile.palette)
        | tile::sides_outside(tile.width, tile.height)
}

// The pair has a linear decoding.
fn is_linear(tile: TileDescriptor) -> bool
    ensures { result ≡ linear_pair (tile_of tile).fmt (tile_of tile).siz }
{
    let pair = FormatInfo {
        fmt: tile.fmt,
        siz: tile.siz,
    };
    pair.validate_tlut(0) & !((tile.fmt == 2) & (tile.siz == 3))
}

// The first refusal: 2, 4, 5, 6.
fn check_linear(source: &[u8], tile: TileDescriptor, stride: u32, out: &[u8]) -> Result<(), Refusal>
    ensures { refusal_of result ≡ first (linear_tests source.now (tile_of tile) stride out.now) }
{
    refuse(Refusal::Tile, fields_outside(tile))?;
    refuse(Refusal::Load, (65536 < source.len()) | (65535 < stride))?;
    refuse(Refusal::Pair, !is_linear(tile))?;
    let texels = tile.width as usize * tile.height as usize;
    refuse(Refusal::Buffer, out.len() < 4 * texels)
}

// The picture, and the count of its reads, or the refusal with the picture as it was lent.
pub fn decode_linear(
    source: &[u8],
    tile: TileDescriptor,
    stride: u32,
    picture: &mut [u8],
) -> Result<u32, Refusal>
    ensures { answered result (picture.new ∷ [])
        ≡ linear_call source.now (tile_of tile) stride picture.old }
{
    check_linear(source, tile, stride, picture)?;
    let format = Format::of_tile(tile);
    let texels = tile.width as usize * tile.height as usize;
    let reads = format.reads() * texels;
    put_source_rows(source, format, tile, stride as usize, picture);
    Ok(reads as u32)
}
