// The sixteen bytes before a record's bank: the tile and the mode. Past a record's end every byte is read as zero.
ghost use Rattle.std.specs.Prelude.{◌≡◌};
ghost use Rattle.rules.specs.Lister.{record_tile, record_mode};
ghost use Rattle.rdp.specs.View.{tile_of};

use crate::numbers::{byte_at, two_at};
use rdp::tile::TileDescriptor;
use rdp::units::{LineWords, WordAddr};

// The bytes before a record's bank.
pub const HEAD: usize = 16;

#[tactic(auto, unfolding(rules::specs::Lister::record_tile))]
pub fn record_tile(bytes: &[u8]) -> TileDescriptor
    ensures { tile_of result ≡ record_tile bytes.now }
{
    TileDescriptor {
        fmt: byte_at(bytes, 0),
        siz: byte_at(bytes, 1),
        palette: byte_at(bytes, 2),
        cms: byte_at(bytes, 4),
        cmt: byte_at(bytes, 5),
        masks: byte_at(bytes, 6),
        maskt: byte_at(bytes, 7),
        line: LineWords(two_at(bytes, 8)),
        tmem_addr: WordAddr(two_at(bytes, 10)),
        width: two_at(bytes, 12),
        height: two_at(bytes, 14),
    }
}

pub fn record_mode(bytes: &[u8]) -> u32
    ensures { result ≡ record_mode bytes.now }
{
    byte_at(bytes, 3)
}
