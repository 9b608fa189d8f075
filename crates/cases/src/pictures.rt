// Pictures: `p` a plain one, `o` one with its trail, `s` a lookup. The output is name, refusal, reads, and the weight of picture and
// trail as every lane left them.
ghost use Rattle.std.specs.Prelude.{◌<◌, ◌^◌};

use crate::line::{Line, OWN};
use crate::{buffers, show};
use decoder::picture::{sample_tile_lane, sample_tile_lane_observed, sampling_lookup_lane};
use rdp::refusal::Refusal;
use std::io;
use std::io::Write;
use tmem::bank::Bank;

// The call's own columns: how many lanes, and the bytes of bank, picture and trail.
const LANES: usize = OWN;

const BANK: usize = OWN + 1;

const PICTURE: usize = OWN + 2;

const TRAIL: usize = OWN + 3;

// Room for the longest trail of a case.
const TRAIL_ROOM: usize = 120;

// An answer, and the weight of what the lanes so far left.
#[derive(Clone, Copy)]
struct Told {
    answer: Result<u32, Refusal>,
    weight: u64,
}

fn picture(
    case: &Line,
    bank: &[u8],
    lane: u32,
    out: &mut [u8],
    seen: &mut [u8],
) -> Result<u32, Refusal> {
    let tile = case.tile();
    let mode = case.mode();
    match case.letter() {
        b'p' => sample_tile_lane(bank, tile, mode, lane, out),
        b'o' => sample_tile_lane_observed(bank, tile, mode, lane, out, seen),
        _ => sampling_lookup_lane(bank, tile, mode, lane, out),
    }
}

fn weight(before: u64, bytes: &[u8]) -> u64
    requires { before < 2 ^ 32 }
    ensures { result < 2 ^ 32 }
{
    show::weight(before, 31, 4294967296, bytes)
}

// One lane into fresh buffers: their weight comes on top of the weight before.
fn in_buffers(case: &Line, bank: &[u8], lane: u32, before: u64) -> Told
    requires { before < 2 ^ 32 }
    ensures { result.weight < 2 ^ 32 }
{
    let mut out: [u8; buffers::PICTURE] = buffers::all(0);
    let mut seen = [0u8; TRAIL_ROOM];
    buffers::fill(&mut out);
    buffers::fill(&mut seen);
    let pixels = &mut out[..case.part(PICTURE, buffers::PICTURE)];
    let trail = &mut seen[..case.part(TRAIL, TRAIL_ROOM)];
    let answer = picture(case, bank, lane, pixels, trail);
    let weight = weight(weight(before, pixels), trail);
    Told { answer, weight }
}

// The lanes one after the other: their weights one on top of the other, and the last one's answer.
fn lanes(case: &Line, bank: &[u8]) -> Told {
    let mut told = in_buffers(case, bank, 0, 1);
    let end = case.number(LANES) % 5;
    for lane in 1..end {
        told = in_buffers(case, bank, lane, told.weight);
    }
    told
}

pub(crate) fn run<W: Write>(output: &mut W, case: &Line) -> io::Result<()> {
    let fresh = Bank::fresh();
    let mut bank = fresh.bytes;
    buffers::fill(&mut bank);
    let bytes = case.part(BANK, Bank::SIZE);
    let told = lanes(case, &bank[..bytes]);
    output.write_all(case.name())?;
    show::refusal(output, told.answer)?;
    writeln!(output, " {} {}", told.answer.unwrap_or(0), told.weight)
}
