// A word load: eight stores, in one of two shapes.
ghost use Rattle.std.specs.Prelude.{◌≡◌, ◌+◌, ◌*◌, ◌%◌, ◌<◌, ◌≤◌};
ghost use Rattle.std.specs.Int.Bits.{bit_xor};
ghost use Rattle.rules.specs.Tile.{bank_size, palette_base};
ghost use Rattle.rules.specs.Load.{list4, upper, split_stores, whole_stores, word_stores};
ghost use Rattle.tmem.specs.Part.{load_of, place_of, half_stores, split_step, split_four, bytes_in, Carried, Counted};

use crate::bank::Bank;
use crate::memory::Memory;
use crate::place::{Four, LoadTile, first_halfword};
use crate::source::source_word;
use crate::tally::Tally;
use rdp::units::ByteAddr;

// Four bytes, from byte k on, of a word that goes to both halves of the bank: two at a place of the list, the other two 2,048 further.
fn write_split_place(memory: &mut Memory, word: u64, tile: LoadTile, low: ByteAddr, k: usize)
    requires low_lt_palette_base { (low.0 < palette_base) × (low.0 % 2 ≡ 0) }
    requires k_bound { k ≤ 4 }
    ensures { Carried (bytes_in word) (split_four (split_step (load_of tile)) low.0 k) memory.old memory.new }
{
    let high = ByteAddr(low.0 + Bank::PALETTE_BASE);
    if tile.fmt == 1 {
        memory.store_pair(word, low, k, k + 2);
        memory.store_pair(word, high, k + 1, k + 3);
        return;
    }
    memory.store_pair(word, low, k, k + 1);
    memory.store_pair(word, high, k + 2, k + 3);
}

// A word that goes to both halves of the bank, four bytes at each of two places of the list.
fn write_split_word(memory: &mut Memory, word: u64, tile: LoadTile, four: Four, start: usize)
    requires start_bound { start ≤ 2 }
    ensures { Carried (bytes_in word) (split_stores (load_of tile) (list4 four.first.number four.odd) start (λ k. k))
        memory.old memory.new }
{
    for i in 0..2 {
        let low = four.halfword(start + i).lower_byte();
        write_split_place(memory, word, tile, low, 4 * i);
    }
}

// The two bytes that place k of the list receives, of a word that goes to one half of the bank: on odd rows those of place k xor 2.
// Either case names its bytes, so that the compiler knows their places.
fn write_whole_place(memory: &mut Memory, word: u64, at: ByteAddr, odd: usize, k: usize)
    requires at_lt_bank_size { (at.0 < bank_size) × (at.0 % 2 ≡ 0) }
    requires odd_bound { (odd ≤ 2) × (odd % 2 ≡ 0) }
    requires k_bound { k < 4 }
    ensures { Carried (bytes_in word) (half_stores at.0 (2 * bit_xor k odd) (2 * bit_xor k odd + 1)) memory.old memory.new }
{
    if odd == 0 {
        memory.store_pair(word, at, 2 * k, 2 * k + 1);
        return;
    }
    let other = k ^ 2;
    memory.store_pair(word, at, 2 * other, 2 * other + 1);
}

// A word that goes to one half of the bank, two bytes at each address of the list of four.
fn write_whole_word(memory: &mut Memory, word: u64, four: Four)
    ensures { Carried (bytes_in word) (whole_stores (list4 four.first.number four.odd) (upper four.first.number) four.odd (λ k. k))
        memory.old memory.new }
{
    for k in 0..4 {
        let n = four.halfword(k);
        let at = ByteAddr(n.lower_byte().0 + four.first.half_start().0);
        write_whole_place(memory, word, at, four.odd, k);
    }
}

// A word load of column s and row t, with its first source byte at `source`; it answers its tally of stores.
pub(crate) fn write_load_word(
    memory: &mut Memory,
    src: &[u8],
    tile: LoadTile,
    s: usize,
    t: usize,
    source: usize,
    replicate: bool,
) -> Tally
    requires t_bound { t < 4096 }
    ensures { Counted src.now (word_stores (load_of tile) s t (place_of source replicate)) memory.old memory.new result }
{
    let column = tile.column_halfword(s);
    let first = first_halfword(tile.row_word(t), column);
    let odd = t % 2 * 2;
    let four = Four { first, odd };
    let word = source_word(src, source, replicate);
    if tile.splits() {
        let start = (column.number & 2) ^ odd;
        write_split_word(memory, word.bytes, tile, four, start);
    } else {
        write_whole_word(memory, word.bytes, four);
    }
    Tally {
        count: 8,
        made_up: word.made_up,
    }
}
