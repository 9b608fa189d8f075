// Reach, has-load, the question for a reason and the lane check: `r` a reach, `m` one in a map of another length, `w` has-load where one
// byte is written, `q` the question, `l` the lane check. The output is the name; of a map, the refusal, how many bits are set, and its
// weight; whether there is a load, by a written record that has sixteen bytes for each of the map; of a question, refusal and reason.
ghost use Rattle.std.specs.Prelude.{◌≤◌};

use crate::line::{Line, OWN};
use crate::{buffers, show};
use rdp::refusal::Refusal;
use rdp::tile::TileDescriptor;
use reach::lane;
use reach::rejection::rejection;
use std::io;
use std::io::Write;
use tmem::bank::Bank;

// The own column of `m`, and that of `w`. Those of `q`: the bytes of the reasons, and where they have 1 and 255. Those of `l`: the bytes
// of bank and map, and where the bank has another byte.
const MAP: usize = OWN;

const WRITTEN: usize = OWN;

const REASONS: usize = OWN;

const ONE: usize = OWN + 1;

const LARGEST: usize = OWN + 2;

const LANE_BANK: usize = OWN;

const LANE_MAP: usize = OWN + 1;

const OTHER: usize = OWN + 2;

// One byte more than a map has, than reasons have, and than a lane map.
const LONG_MAP: usize = 512 + 1;

const LONG_REASONS: usize = Bank::REASONS_SIZE + 1;

const LONG_LANE_MAP: usize = 32 + 1;

// A refusal and a map. Every bit of the map is turned over.
fn turned<W: Write>(output: &mut W, answer: Result<(), Refusal>, map: &mut [u8]) -> io::Result<()> {
    let weight = show::weight(0, 31, 65521, map);
    show::refusal(output, answer)?;
    write!(output, " {} {weight}", buffers::turn_over(map))
}

// The bytes of a map's written record, as far as there is room.
fn record_bytes(map: &[u8]) -> usize
    ensures { result ≤ 8208 }
{
    16 * map.len().min(LONG_MAP)
}

// Has-load's answer where just the bytes that a map marks are written.
fn has_load(tile: TileDescriptor, mode: u32, map: &[u8]) -> Result<bool, Refusal> {
    let mut written: [u8; buffers::RECORD] = buffers::all(0);
    buffers::number_marked(map, &mut written);
    let bytes = record_bytes(map);
    reach::has_load::tile_has_load(tile, mode, &written[..bytes])
}

// A yes or a no, which is no where the call refused.
fn yes<W: Write>(output: &mut W, answer: Result<bool, Refusal>) -> io::Result<()> {
    show::number(output, answer.unwrap_or(false) as u64)
}

// The reach of a tile in a map that was filled before. Then has-load's answer where just the marked bytes are written.
fn reached<W: Write>(
    output: &mut W,
    tile: TileDescriptor,
    mode: u32,
    map: &mut [u8],
) -> io::Result<()> {
    let answer = reach::reach::reach(tile, mode, map);
    let own = has_load(tile, mode, map);
    turned(output, answer, map)?;
    show::refusal(output, own)?;
    yes(output, own)
}

// Whether the tile has a load where the bytes that a map marks are written.
fn loaded<W: Write>(output: &mut W, tile: TileDescriptor, mode: u32, map: &[u8]) -> io::Result<()> {
    yes(output, has_load(tile, mode, map))
}

// A reach in a map that had every bit set, and has-load where just the bytes that are not reached are written.
fn reach_case<W: Write>(output: &mut W, tile: TileDescriptor, mode: u32) -> io::Result<()> {
    let mut map = [255u8; 512];
    reached(output, tile, mode, &mut map)?;
    loaded(output, tile, mode, &map)
}

// A reach in a map of so many bytes.
fn length_case<W: Write>(
    output: &mut W,
    case: &Line,
    tile: TileDescriptor,
    mode: u32,
) -> io::Result<()> {
    let mut map = [170u8; LONG_MAP];
    let length = case.part(MAP, LONG_MAP);
    reached(output, tile, mode, &mut map[..length])
}

// Has-load where one byte alone is written.
fn written_case<W: Write>(
    output: &mut W,
    case: &Line,
    tile: TileDescriptor,
    mode: u32,
) -> io::Result<()> {
    let mut map = [0u8; 512];
    let at = case.number(WRITTEN) as usize;
    buffers::put(&mut map, at / 8, 1u8 << at % 8);
    loaded(output, tile, mode, &map)
}

// The first reason of a tile, where two addresses have one.
fn question_case<W: Write>(
    output: &mut W,
    case: &Line,
    tile: TileDescriptor,
    mode: u32,
) -> io::Result<()> {
    let mut reasons = [0u8; LONG_REASONS];
    buffers::put(&mut reasons, case.number(ONE) as usize, 1);
    buffers::put(&mut reasons, case.number(LARGEST) as usize, 255);
    let length = case.part(REASONS, LONG_REASONS);
    let answer = rejection(tile, mode, &reasons[..length]);
    show::refusal(output, answer)?;
    show::number(output, answer.unwrap_or(0) as u64)
}

// The lane map of a bank with one other byte.
fn lanes<W: Write>(output: &mut W, bank: &mut [u8], map: &mut [u8], at: usize) -> io::Result<()> {
    buffers::put(bank, at, 8);
    turned(output, lane::palette_nonreplicated_bytes(bank, map), map)
}

// A bank of sevens and a lane map, each of so many bytes.
fn lane_case<W: Write>(output: &mut W, case: &Line) -> io::Result<()> {
    let mut bank: [u8; buffers::LONG_BANK] = buffers::all(7);
    let mut map = [170u8; LONG_LANE_MAP];
    let bytes = case.part(LANE_BANK, buffers::LONG_BANK);
    let slots = case.part(LANE_MAP, LONG_LANE_MAP);
    let at = case.number(OTHER) as usize;
    lanes(output, &mut bank[..bytes], &mut map[..slots], at)
}

pub(crate) fn run<W: Write>(output: &mut W, case: &Line) -> io::Result<()> {
    let tile = case.tile();
    let mode = case.mode();
    output.write_all(case.name())?;
    match case.letter() {
        b'r' => reach_case(output, tile, mode)?,
        b'm' => length_case(output, case, tile, mode)?,
        b'w' => written_case(output, case, tile, mode)?,
        b'q' => question_case(output, case, tile, mode)?,
        _ => lane_case(output, case)?,
    }
    output.write_all(b"\n")
}
