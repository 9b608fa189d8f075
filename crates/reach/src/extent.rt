// How far a tile reaches: the bytes of a row, and the rows before its addresses repeat.
ghost use Rattle.std.specs.Prelude.{◌≡◌, ◌≤◌};
ghost use Rattle.rules.specs.Reach.{extent, sized_bytes, row_bytes, row_period, reach_rows};
ghost use Rattle.rdp.specs.View.{tile_of};
ghost use Rattle.rules.specs.Tile.{bank_size};

use crate::tile::TileInMode;
use tmem::bank::Bank;

// The bits of an address of the bank: its size is 2 to this.
const ADDRESS_BITS: usize = 12;

// An axis that repeats reaches one period, any other its size, and 1 at least.
fn axis_extent(cm: u32, mask: u32, size: u32) -> usize
    requires { mask ≤ 15 }
    ensures { result ≡ extent cm mask size }
{
    if (mask != 0) & (cm & 2 == 0) {
        1usize << mask
    } else {
        (size as usize).max(1)
    }
}

// The bytes of a row of w texels: half a byte, 1, 2 or 2 each.
fn sized_bytes(siz: u32, w: usize) -> usize
    requires { w ≤ 32768 }
    ensures { result ≡ sized_bytes siz w }
{
    match siz {
        0 => w.div_ceil(2),
        1 => w,
        _ => 2 * w,
    }
}

// The bytes of a row, at most the bank's.
#[tactic(auto, unfolding(rules::specs::Reach::row_bytes))]
pub(crate) fn row_bytes(asked: TileInMode) -> usize
    ensures { (result ≡ row_bytes (tile_of asked.tile)) × (result ≤ bank_size) }
{
    let tile = asked.tile;
    sized_bytes(tile.siz, axis_extent(tile.cms, tile.masks, tile.width)).min(Bank::SIZE)
}

// The rows after which the addresses repeat, the swap of odd rows among them.
fn row_period(asked: TileInMode) -> usize
    ensures { result ≡ row_period (tile_of asked.tile) }
{
    let stride = asked.tile.line.bytes();
    let zeros = stride.0.trailing_zeros() as usize;
    usize::max(2, Bank::SIZE >> zeros.min(ADDRESS_BITS))
}

// The rows that are reached.
#[tactic(auto, unfolding(rules::specs::Reach::reach_rows))]
pub(crate) fn reach_rows(asked: TileInMode) -> usize
    ensures { result ≡ reach_rows (tile_of asked.tile) }
{
    let tile = asked.tile;
    axis_extent(tile.cmt, tile.maskt, tile.height).min(row_period(asked))
}
