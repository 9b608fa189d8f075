// What the programs read and write a piece at a time. A piece that was read, or whether a text was written, is told by no call's
// arguments, so what reads and writes are methods of traits: a public function's contract tells its answer.
#![tactic(auto)]

pub mod reader;
pub mod text;
