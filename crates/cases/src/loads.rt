// Loads: `b` a block, `t` a tile, `c` a lookup table; `B`, `T` and `C` are rejected ones. The output is name, refusal, count, made-up
// count, number, the weights of bank and written map after the load, and eight bytes of the bank. Where LENT is 2 there follow the weight
// of the reasons and eight of them.
use crate::line::{Line, OWN};
use crate::{buffers, show};
use rdp::answer::Loaded;
use rdp::refusal::Refusal;
use std::io;
use std::io::Write;
use tmem::asked::Asked;
use tmem::bank::Bank;
use tmem::load::{write_block_for_tile, write_tile_for_tile};
use tmem::reason::Reason;

// The call's own columns. A and B are a block's dxt and words, a tile's rows and words a row, a lookup table's count and rows. The
// source has BYTES bytes, which count up from START by STEP. Bank, map and reasons have so many bytes, and are fresh where LENT is 0.
// Bytes are shown from SHOWN on. LAST is the number of the load before. REASON is why a load is rejected.
const IMAGE: usize = OWN;

const A: usize = OWN + 1;

const B: usize = OWN + 2;

const STRIDE: usize = OWN + 3;

const BYTES: usize = OWN + 4;

const START: usize = OWN + 5;

const STEP: usize = OWN + 6;

const BANK: usize = OWN + 7;

const MAP: usize = OWN + 8;

const LENT: usize = OWN + 9;

const SHOWN: usize = OWN + 10;

const LAST: usize = OWN + 11;

const REASONS: usize = OWN + 12;

const REASON: usize = OWN + 13;

// A capital letter's load is rejected.
fn reason(case: &Line) -> Reason {
    match case.letter() {
        b'B' | b'T' | b'C' => Reason::Rejected(case.number(REASON)),
        _ => Reason::Ordinary,
    }
}

// The load. It lends the three buffers one by one, as the public loads take them.
fn load(
    case: &Line,
    bank: &mut [u8],
    map: &mut [u8],
    reasons: &mut [u8],
    src: &[u8],
) -> Result<Loaded, Refusal> {
    let tile = case.tile();
    let size = case.number(IMAGE);
    let a = case.number(A);
    let b = case.number(B);
    let c = case.number(STRIDE);
    let why = reason(case);
    let last = case.number(LAST);
    match case.letter() {
        b'b' | b'B' => write_block_for_tile(bank, map, reasons, src, tile, size, a, b, why, last),
        b't' | b'T' => write_tile_for_tile(bank, map, reasons, src, tile, size, a, b, c, why, last),
        _ => {
            let table = Asked::tlut(size, a as usize, b as usize, c as usize);
            tmem::load::load(bank, map, reasons, src, tile, size, table, why, last)
        }
    }
}

// The load's numbers. Where it was refused they are 0, but the number of the last load, which is the one passed.
fn show_loaded<W: Write>(
    output: &mut W,
    case: &Line,
    answer: Result<Loaded, Refusal>,
) -> io::Result<()> {
    let loaded = answer.unwrap_or(Loaded {
        count: 0,
        made_up: 0,
        number: case.number(LAST),
    });
    show::refusal(output, answer)?;
    write!(
        output,
        " {} {} {}",
        loaded.count, loaded.made_up, loaded.number
    )
}

// Eight of the bytes, from where the case asks for them, if there are as many.
fn shown<W: Write>(output: &mut W, case: &Line, bytes: &[u8]) -> io::Result<()> {
    output.write_all(b":")?;
    let from = case.number(SHOWN) as usize;
    if let Some(eight) = bytes.get(from..from + 8) {
        for byte in eight {
            show::number(output, *byte as u64)?;
        }
    }
    Ok(())
}

fn weight(bytes: &[u8]) -> u64 {
    show::weight(0, 257, 65521, bytes)
}

// The load into the first bytes of a bank, a map and reasons. Bank and map are shown whole.
fn load_into<W: Write>(
    output: &mut W,
    case: &Line,
    bank: &mut [u8],
    map: &mut [u8],
    reasons: &mut [u8],
    src: &[u8],
) -> io::Result<()> {
    let bank_len = case.part(BANK, bank.len());
    let map_len = case.part(MAP, map.len());
    let reasons_len = case.part(REASONS, reasons.len());
    let answer = load(
        case,
        &mut bank[..bank_len],
        &mut map[..map_len],
        &mut reasons[..reasons_len],
        src,
    );
    output.write_all(case.name())?;
    show_loaded(output, case, answer)?;
    show::number(output, weight(bank))?;
    show::number(output, weight(map))?;
    shown(output, case, bank)
}

// The load into a fresh bank, or into parts of a bank of sevens, of a map of nines and of reasons of nines.
fn load_from<W: Write>(output: &mut W, case: &Line, src: &[u8]) -> io::Result<()> {
    let lent = case.number(LENT);
    if lent == 0 {
        let fresh = Bank::fresh();
        let mut bank = fresh.bytes;
        let mut map = [0u8; Bank::WRITTEN_SIZE];
        let mut reasons = [0u8; Bank::REASONS_SIZE];
        return load_into(output, case, &mut bank, &mut map, &mut reasons, src);
    }
    let mut bank: [u8; buffers::LONG_BANK] = buffers::all(7);
    let mut map: [u8; Bank::WRITTEN_SIZE + 1] = buffers::all(9);
    let mut reasons: [u8; Bank::REASONS_SIZE + 1] = buffers::all(9);
    load_into(output, case, &mut bank, &mut map, &mut reasons, src)?;
    if lent == 2 {
        show::number(output, weight(&reasons))?;
        shown(output, case, &reasons)?;
    }
    Ok(())
}

pub(crate) fn run<W: Write>(output: &mut W, case: &Line) -> io::Result<()> {
    let mut source: [u8; buffers::SOURCE] = buffers::all(0);
    buffers::count_up(&mut source, case.number(START), case.number(STEP));
    let bytes = case.part(BYTES, buffers::SOURCE);
    load_from(output, case, &source[..bytes])?;
    output.write_all(b"\n")
}
