// Runs cases through the public calls: the worked loads and the loads' boundaries; rejected loads; reach, has-load, the question for a
// reason and the lane check at their boundaries; pictures and lookups at theirs, and every pair in every mode on every lane. Standard
// input has a case a line (line.rt), after a line of the columns' names for each kind. A line of output each: the case's name and what
// came out.
#![tactic(auto)]

mod buffers;
mod line;
mod loads;
mod pictures;
mod reaches;
mod show;

use line::Line;
use std::io;
use std::io::{ErrorKind, Read, Write};

// The case of a line, by its letter, which is the input's own word for a kind. A line of the columns' names has none of these.
fn run<W: Write>(output: &mut W, case: &Line) -> io::Result<()> {
    match case.letter() {
        b'b' | b't' | b'c' | b'B' | b'T' | b'C' => loads::run(output, case),
        b'r' | b'm' | b'w' | b'q' | b'l' => reaches::run(output, case),
        b'p' | b'o' | b's' => pictures::run(output, case),
        _ => Ok(()),
    }
}

// Runs the next line. Past the end of the input there is none.
fn run_next<R: Read, W: Write>(input: &mut R, output: &mut W) -> io::Result<()> {
    let mut case = Line::blank();
    match input.read_exact(&mut case.bytes) {
        Ok(()) => run(output, &case),
        Err(error) if error.kind() == ErrorKind::UnexpectedEof => Ok(()),
        Err(error) => Err(error),
    }
}

// A thousand lines at most.
fn main(rt: HostRuntime) -> io::Result<()> {
    let mut input = rt.stdin();
    let mut output = rt.stdout();
    for _ in 0..1000u32 {
        run_next(&mut input, &mut output)?;
    }
    output.flush()
}
