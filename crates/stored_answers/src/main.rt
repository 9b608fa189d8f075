// The stored answers of the original Rust, from standard input, replayed through the public calls. oracle/answers/README.md
// has the layout of a record and says how the answers were made.
#![tactic(auto)]

mod buffers;
mod cases;
mod record;

use record::Record;
use std::io;
use std::io::{ErrorKind, Read};

// What was found so far, the digest of all bytes so far, and whether the last record was the end record with the digest of all
// bytes before its own.
#[derive(Clone, Copy)]
struct Tally {
    cases: u64,
    wrong: u64,
    sum: u32,
    whole: bool,
}

impl Tally {
    // One record more: the end record, or a case.
    fn add(&mut self, r: &Record) {
        let most = buffers::digest_on(self.sum, &r.bytes[..60]);
        let is_end = r.one(0) == 255;
        self.sum = buffers::digest_on(self.sum, &r.bytes);
        self.whole = is_end && most == r.four(60);
        if !is_end {
            self.cases = self.cases.wrapping_add(1);
            self.wrong = self.wrong.wrapping_add(!cases::holds(r) as u64);
        }
    }
}

// Reads the next record, and answers whether there was a whole one. A torn one has the bytes that came.
fn read_record<R: Read>(input: &mut R, r: &mut Record) -> io::Result<bool> {
    match input.read_exact(&mut r.bytes) {
        Ok(()) => Ok(true),
        Err(error) if error.kind() == ErrorKind::UnexpectedEof => Ok(false),
        Err(error) => Err(error),
    }
}

// The first record says how the file was made; the others are replayed, ten thousand at most.
fn replay<R: Read>(input: &mut R) -> io::Result<Tally> {
    let mut head = Record::zero();
    read_record(input, &mut head)?;
    let mut tally = Tally {
        cases: 0,
        wrong: 0,
        sum: buffers::digest_on(1, &head.bytes),
        whole: false,
    };
    for _ in 0..10000u32 {
        let mut r = Record::zero();
        if read_record(input, &mut r)? {
            tally.add(&r);
        }
    }
    Ok(tally)
}

fn report(rt: &impl Print, t: Tally) -> io::Result<()> {
    let state = if t.whole { "whole" } else { "damaged" };
    println!(rt; "{} cases, {} wrong, the file {state}", t.cases, t.wrong)
}

fn main(rt: HostRuntime) -> io::Result<()> {
    let mut input = rt.stdin();
    report(&rt, replay(&mut input)?)
}
