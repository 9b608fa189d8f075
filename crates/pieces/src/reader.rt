// A reader that is read a piece at a time.
ghost use Rattle.std.specs.Prelude.{◌≤◌, length};

use std::io;
use std::io::{ErrorKind, Read};

// A read that fails ends what is read, and its error is kept.
#[derive(Drop)]
pub struct PieceReader<R> {
    pub reader: R,
    pub failed: io::Result<()>,
}

pub trait ReadPiece {
    // Reads until the piece is full or there is no more, and answers how many bytes were read.
    fn fill(&mut self, piece: &mut [u8]) -> usize
        ensures { result ≤ length piece.new };
}

impl<R: Read> ReadPiece for PieceReader<R> {
    // A proved loop has to end, and nothing says that reads do. So the loop counts its turns, up to a number that no run reaches.
    fn fill(&mut self, piece: &mut [u8]) -> usize {
        let mut size = 0;
        for _ in 0..u64::MAX {
            if size == piece.len() {
                break;
            }
            match self.reader.read(&mut piece[size..]) {
                Ok(0) => break,
                Ok(more) => size += more,
                Err(error) => {
                    if error.kind() != ErrorKind::Interrupted {
                        self.failed = Err(error);
                        break;
                    }
                }
            }
        }
        size
    }
}
