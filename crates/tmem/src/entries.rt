// Rows of a lookup table's entries, each pair of bytes four times over.
ghost use Rattle.std.specs.Prelude.{◌≡◌, false, ◌+◌, ◌*◌, ◌%◌, ◌<◌, ◌≤◌};
ghost use Rattle.rules.specs.Base.{tab};
ghost use Rattle.rules.specs.Calls.{tlut_outside};
ghost use Rattle.rules.specs.Tile.{bank_size};
ghost use Rattle.rules.specs.Load.{store, entry_row, row_stores};
ghost use Rattle.tmem.specs.Part.{load_of, Counted};

use crate::bank::Bank;
use crate::memory::Memory;
use crate::place::LoadTile;
use crate::source::source_word;
use crate::tally::Tally;
use rdp::units::{ByteAddr, WordAddr};

// The lines from row to row.
const LINES_A_ROW: u32 = 4;

// The byte at which entry i of a row starts. An entry is one word, whose eight bytes lie together.
fn entry_addr(tile: LoadTile, row: usize, i: usize) -> ByteAddr
    requires row_bound { row < 1024 }
    requires i_bound { i < 1024 }
    ensures result_value { result.0 ≡ (8 * tile.tmem_addr.0 + 32 * row * tile.line.0 + 8 * i) % bank_size }
    ensures result_bound { (result.0 + 8 ≤ bank_size) × (result.0 % 2 ≡ 0) }
{
    let first = tile.tmem_addr.row(tile.line, LINES_A_ROW * row as u32);
    let entry = WordAddr(first.0 + i as u32);
    ByteAddr(entry.bytes().0 & Bank::MASK8)
}

// An entry's pair of bytes, four times over; it answers its tally of stores.
fn write_tlut_entry(memory: &mut Memory, src: &[u8], at: ByteAddr, source: usize) -> Tally
    requires { (at.0 + 8 ≤ bank_size) × (at.0 % 2 ≡ 0) }
    ensures { Counted src.now (tab 8 (λ k. store (at.0 + k) (source + k % 2))) memory.old memory.new result }
{
    let word = source_word(src, source, true);
    for k in 0..4 {
        let to = ByteAddr(at.0 + 2 * k);
        memory.store_pair(word.bytes, to, 2 * k, 2 * k + 1);
    }
    Tally {
        count: 8,
        made_up: word.made_up,
    }
}

// The numbers of a load by rows, which are in their ranges.
#[derive(Clone, Copy)]
pub(crate) struct RowsLoad {
    pub(crate) count: usize,
    pub(crate) rows: usize,
    pub(crate) stride: usize,
    ghost in_range: { tlut_outside count rows stride ≡ false },
}

impl RowsLoad {
    // The entries of a row; it answers its tally of stores.
    fn write_row(self, memory: &mut Memory, src: &[u8], tile: LoadTile, row: usize) -> Tally
        requires { row < self.rows }
        ensures { Counted src.now (entry_row (load_of tile) self.count self.stride row) memory.old memory.new result }
    {
        // A memory of its own: the compiler keeps its places at hand, and does not read them again after each store.
        let mut own = Memory {
            bank: &mut *memory.bank,
            written: &mut *memory.written,
            reasons: &mut *memory.reasons,
            label: memory.label,
        };
        let mut tally = Tally::none();
        for i in 0..self.count {
            let at = entry_addr(tile, row, i);
            let source = row * self.stride + 2 * i;
            let more = write_tlut_entry(&mut own, src, at, source);
            tally = tally.plus(more);
        }
        tally
    }

    // The rows of entries; it answers its tally of stores.
    pub(crate) fn write(self, memory: &mut Memory, src: &[u8], tile: LoadTile) -> Tally
        ensures { Counted src.now (row_stores (load_of tile) self.count self.rows self.stride) memory.old memory.new result }
    {
        let mut tally = Tally::none();
        for row in 0..self.rows {
            let more = self.write_row(memory, src, tile, row);
            tally = tally.plus(more);
        }
        tally
    }
}
