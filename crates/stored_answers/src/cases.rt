// One stored case: the call made again, and its answer and buffers compared with the stored ones.
use crate::buffers;
use crate::record::Record;
use rdp::answer::Loaded;
use rdp::refusal::Refusal;
use tmem::asked::Asked;
use tmem::bank::Bank;
use tmem::load::{write_block_for_tile, write_tile_for_tile};
use tmem::reason::Reason;

// The loads.
#[derive(Clone, Copy)]
enum Load {
    Block,
    Tile,
    Tlut,
}

// The pictures, a plain one or the lookup, without or with the trail of its reads.
#[derive(Clone, Copy)]
enum Picture {
    Plain,
    PlainObserved,
    Lookup,
    LookupObserved,
}

// The bank of a case.
fn bank_of(r: &Record) -> [u8; Bank::SIZE] {
    let mut bank = [0u8; Bank::SIZE];
    buffers::made(&mut bank, r.four(30), 0);
    buffers::poke(&mut bank, r.two(26), r.two(28));
    bank
}

// The stored digests of the first and of the second buffer.
fn first_is(r: &Record, bytes: &[u8]) -> bool {
    buffers::digest_on(1, bytes) == r.four(56)
}

fn second_is(r: &Record, bytes: &[u8]) -> bool {
    buffers::digest_on(1, bytes) == r.four(60)
}

// An ordinary block, tile or TLUT load.
fn loaded(
    r: &Record,
    kind: Load,
    bank: &mut [u8],
    written: &mut [u8],
    reasons: &mut [u8],
    src: &[u8],
    last: u32,
) -> Result<Loaded, Refusal> {
    let tile = r.tile();
    let image = r.two(18);
    let a = r.two(20);
    let b = r.two(22);
    let c = r.two(24);
    let why = Reason::Ordinary;
    match kind {
        Load::Block => {
            write_block_for_tile(bank, written, reasons, src, tile, image, a, b, why, last)
        }
        Load::Tile => {
            write_tile_for_tile(bank, written, reasons, src, tile, image, a, b, c, why, last)
        }
        Load::Tlut => {
            let table = Asked::tlut(image, a as usize, b as usize, c as usize);
            tmem::load::load(bank, written, reasons, src, tile, image, table, why, last)
        }
    }
}

// A load's answer is the stored one. Its number is the one after the last, which the original does not have.
fn loaded_is(r: &Record, answer: Result<Loaded, Refusal>, last: u32) -> bool {
    let (made_up, numbered) = match answer {
        Ok(loaded) => (loaded.made_up, loaded.number == last.wrapping_add(1)),
        Err(_) => (0, true),
    };
    r.answered(answer.map(|loaded| loaded.count)) & (made_up == r.four(52)) & numbered
}

// The original has a map of marks. Its marked addresses have numbers here, and those that have one after the load are marked again.
fn load_is(r: &Record, kind: Load, source: &[u8]) -> bool {
    let mut bank = bank_of(r);
    let mut marks = [0u8; 512];
    buffers::made(&mut marks, r.four(30), 1);
    let mut written = [0u8; Bank::WRITTEN_SIZE];
    buffers::number_marked(&marks, &mut written);
    let mut reasons = [0u8; Bank::REASONS_SIZE];
    let last = r.four(30) % 65535;
    let answer = loaded(r, kind, &mut bank, &mut written, &mut reasons, source, last);
    buffers::mark_numbered(&written, &mut marks);
    loaded_is(r, answer, last) & first_is(r, &bank) & second_is(r, &marks)
}

// A load of a source of the case's length.
fn load_case(r: &Record, kind: Load) -> bool {
    let mut source: [u8; 65536] = buffers::all(0);
    buffers::made(&mut source, r.four(30), 2);
    let long = r.long(34, 65536);
    load_is(r, kind, &source[..long])
}

fn sampling_case(r: &Record) -> bool {
    let answer = tile_sampling::sampling::sampling(r.tile(), r.mode());
    let (width, height) = match answer {
        Ok(sampled) => (sampled.width, sampled.height),
        Err(_) => (0, 0),
    };
    r.answered(answer.map(|sampled| sampled.lookup as u32))
        & (width == r.two(52))
        & (height == r.two(54))
}

fn sampled(
    r: &Record,
    kind: Picture,
    bank: &[u8],
    out: &mut [u8],
    trail: &mut [u8],
) -> Result<u32, Refusal> {
    let tile = r.tile();
    let mode = r.mode();
    let lane = r.lane();
    match kind {
        Picture::Plain => decoder::picture::sample_tile_lane(bank, tile, mode, lane, out),
        Picture::PlainObserved => {
            decoder::picture::sample_tile_lane_observed(bank, tile, mode, lane, out, trail)
        }
        Picture::Lookup => decoder::picture::sampling_lookup_lane(bank, tile, mode, lane, out),
        Picture::LookupObserved => {
            decoder::picture::sampling_lookup_lane_observed(bank, tile, mode, lane, out, trail)
        }
    }
}

// Without a trail no digest of one is stored.
fn picture_is(r: &Record, kind: Picture, out: &mut [u8], trail: &mut [u8]) -> bool {
    let bank = bank_of(r);
    let answer = sampled(r, kind, &bank, out, trail);
    let trail_is = match kind {
        Picture::Plain | Picture::Lookup => true,
        Picture::PlainObserved | Picture::LookupObserved => second_is(r, trail),
    };
    r.answered(answer) & first_is(r, out) & trail_is
}

// A picture and a trail of the case's lengths.
fn picture_case(r: &Record, kind: Picture) -> bool {
    let mut out: [u8; 65536] = buffers::all(165);
    let mut trail: [u8; 131072] = buffers::all(165);
    let long = r.long(38, 65536);
    let told = r.long(42, 131072);
    picture_is(r, kind, &mut out[..long], &mut trail[..told])
}

fn reach_case(r: &Record) -> bool {
    let mut map = [165u8; 512];
    let answer = reach::reach::reach(r.tile(), r.mode(), &mut map);
    r.answered(answer.map(|_| 0)) & first_is(r, &map)
}

fn has_load_case(r: &Record) -> bool {
    let mut marks = [0u8; 512];
    buffers::made(&mut marks, r.four(30), 1);
    buffers::poke(&mut marks, r.two(26), r.two(28));
    let mut written = [0u8; Bank::WRITTEN_SIZE];
    buffers::number_marked(&marks, &mut written);
    let answer = reach::has_load::tile_has_load(r.tile(), r.mode(), &written);
    r.answered(answer.map(|yes| yes as u32))
}

fn lane_case(r: &Record) -> bool {
    let bank = bank_of(r);
    let mut map = [165u8; 32];
    let answer = reach::lane::palette_nonreplicated_bytes(&bank, &mut map);
    r.answered(answer.map(|_| 0)) & first_is(r, &map)
}

fn key_case(r: &Record) -> bool {
    let bank = bank_of(r);
    let mut kept = [165u8; Bank::SIZE];
    let answer = key::key::key(&bank, r.tile(), r.mode(), r.lane(), &mut kept);
    r.answered(answer) & first_is(r, &kept)
}

// The case by the number of its kind.
pub(crate) fn holds(r: &Record) -> bool {
    match r.one(0) {
        1 => load_case(r, Load::Block),
        2 => load_case(r, Load::Tile),
        3 => load_case(r, Load::Tlut),
        4 => sampling_case(r),
        5 => picture_case(r, Picture::Plain),
        6 => picture_case(r, Picture::PlainObserved),
        7 => picture_case(r, Picture::Lookup),
        8 => picture_case(r, Picture::LookupObserved),
        9 => reach_case(r),
        10 => has_load_case(r),
        11 => lane_case(r),
        12 => key_case(r),
        _ => false,
    }
}
