// A record's line: its refusal, or the sampling flag, the distinct kept bytes, and the texels of the picture that the
// flag calls for.
ghost use Rattle.std.specs.Prelude.{◌≡◌, cond, ◌*◌, ◌≤◌};
ghost use Rattle.rules.specs.Tile.{side_limit};
ghost use Rattle.rules.specs.Sampling.{lookup_texels};
ghost use Rattle.rules.specs.Lister.{record_line};
ghost use Rattle.listing.specs.View.{numbers_of};

use crate::list::RECORD;
use key::cut::empty_key;
use key::key::key;
use rdp::refusal::Refusal;
use rdp::tile::TileDescriptor;
use record::fields::{HEAD, record_mode, record_tile};
use tile_sampling::sampling::TileSampling;
use tmem::bank::Bank;

// The texels of a lookup: four for each place of the bank.
const LOOKUP_TEXELS: u32 = 4 * Bank::SIZE as u32;

// What a line says of a record that is not refused.
#[derive(Clone, Copy)]
pub(crate) struct Listed {
    pub(crate) lookup: bool,
    pub(crate) kept: u32,
    pub(crate) texels: u32,
}

// The texels of a lookup, or of a plain picture.
fn texel_count(tile: TileDescriptor, lookup: bool) -> u32
    requires { (tile.width ≤ side_limit) × (tile.height ≤ side_limit) }
    ensures { result ≡ cond lookup lookup_texels (tile.width * tile.height) }
{
    if lookup {
        LOOKUP_TEXELS
    } else {
        tile.width * tile.height
    }
}

// The line of a record. The key is cut for its count alone.
pub(crate) fn record_line(bytes: &[u8; RECORD]) -> Result<Listed, Refusal>
    ensures { numbers_of result ≡ record_line bytes.now }
{
    let tile = record_tile(bytes);
    let mode = record_mode(bytes);
    let kept = key(&bytes[HEAD..], tile, mode, 0, &mut empty_key())?;
    let sampling = TileSampling::from_tile(tile, mode);
    Ok(Listed {
        lookup: sampling.lookup,
        kept,
        texels: texel_count(tile, sampling.lookup),
    })
}
