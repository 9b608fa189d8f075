// The tables of modes 2 and 3, made once a picture: the halves of their entries, and the entries as ready texels.
ghost use Rattle.std.specs.Prelude.{◌≡◌, ◌<◌};
ghost use Rattle.rdp.specs.View.{tile_of};
ghost use Rattle.texdec.specs.Ready.{halves_of};
ghost use Rattle.decoder.specs.Tables.{half_sum, entry_format, first_entry, entry_count, EntryTable};

use rdp::tile::TileDescriptor;
use texdec::ia16::ia16_halves;
use texdec::pair::Picture;
use texdec::rgba16::rgba16_halves;
use tmem::bank::Bank;

// The ready texel of two bytes, from a table of halves.
#[inline(always)]
pub(crate) fn half_sum(halves: &[u32; 512], hi: u8, lo: u8) -> u32
    requires { half_sum halves.now hi lo < 4294967296 }
    ensures { result ≡ half_sum halves.now hi lo }
{
    halves[hi as usize] + halves[256 + lo as usize]
}

// The halves of a mode's entries.
pub(crate) fn halves_of(tlut_fmt: u32) -> [u32; 512]
    ensures { result ≡ halves_of (entry_format tlut_fmt) }
{
    if tlut_fmt == 2 {
        rgba16_halves()
    } else {
        ia16_halves()
    }
}

// The entries that the tile's index bytes can stand for: its palette's 16 for size 0, else all.
fn first_entry(tile: TileDescriptor) -> usize
    ensures { result ≡ first_entry (tile_of tile) }
{
    if tile.siz == 0 {
        tile.palette as usize * 16
    } else {
        0
    }
}

fn entry_count(tile: TileDescriptor) -> usize
    ensures { result ≡ entry_count (tile_of tile) }
{
    if tile.siz == 0 { 16 } else { 256 }
}

// They as ready texels, each at its place.
pub(crate) fn entry_table(bank: &[u8; Bank::SIZE], picture: Picture) -> [u32; 256]
    ensures { EntryTable (tile_of picture.tile) picture.tlut picture.lane bank.now result }
{
    let first = first_entry(picture.tile);
    let count = entry_count(picture.tile);
    let halves = halves_of(picture.tlut);
    let mut table = [0u32; 256];
    // By index: a proof loses what was written through `iter_mut`.
    for k in 0..count {
        let i = first + k;
        let at = Bank::entry_addr(i as u8, picture.lane).0;
        table[i] = half_sum(&halves, bank[at], bank[at + 1]);
    }
    table
}
