// The companion file, and the bytes of it that are held.
ghost use Rattle.std.specs.Prelude.{◌≡◌, ◌≤◌};
ghost use Rattle.replay.specs.Piece.{held_size};

use pieces::reader::{PieceReader, ReadPiece};
use std::io;
use std::io::{Read, Seek, SeekFrom};

// The room of the bytes that are held, and how many are held at least, if the file has them: the next records often name those after
// a part.
const HELD: usize = 65536;

const AHEAD: usize = 4096;

// A file that can be used, and its length. It is handed on without the bytes that are held, of which each step would have a copy on the
// stack.
#[derive(Drop)]
pub(crate) struct Opened<F> {
    file: F,
    end: u64,
}

// The file with its length, whether a read of it fell short of that, and the bytes that are held: from which offset on, and how many.
#[derive(Drop)]
pub(crate) struct Companion<F> {
    reader: PieceReader<F>,
    pub(crate) end: u64,
    is_shorter: bool,
    pub(crate) start: u64,
    bytes: [u8; HELD],
    size: usize,
    ghost size_in_bounds: { size ≤ held_size },
}

// As many bytes of the file from an offset on as it has and are wanted.
fn size_from(file_end: u64, offset: u64, most: usize) -> usize
    ensures { result ≤ most }
{
    file_end.saturating_sub(offset).min(most as u64) as usize
}

impl<F: Read + Seek> Opened<F> {
    // A file that is open. One without a length, such as a pipe, or that cannot be read, such as a folder, is an error. What is read
    // is of no use.
    pub(crate) fn new(mut file: F) -> io::Result<Opened<F>>
    where
        F: Drop,
    {
        let end = file.seek(SeekFrom::End(0))?;
        file.read(&mut [0u8; HELD])?;
        Ok(Opened { file, end })
    }
}

impl<F: Read + Seek> Companion<F> {
    // Nothing is held yet.
    pub(crate) fn new(opened: Opened<F>) -> Companion<F> {
        Companion {
            reader: PieceReader {
                reader: opened.file,
                failed: Ok(()),
            },
            end: opened.end,
            is_shorter: false,
            start: 0,
            bytes: [0u8; HELD],
            size: 0,
        }
    }

    // The bytes that are held.
    pub(crate) fn held(&self) -> &[u8] {
        &self.bytes[..self.size]
    }

    // Holds the bytes from an offset on, as many as a record states, or more, but no more than find room. It answers whether all were
    // read.
    pub(crate) fn hold(&mut self, offset: u32, stated: u32) -> bool
        ensures { self.new.end ≡ self.old.end }
    {
        self.start = offset as u64;
        let wanted = (stated as usize).clamp(AHEAD, HELD);
        self.size = size_from(self.end, self.start, wanted);
        let sought = self.reader.reader.seek(SeekFrom::Start(self.start));
        if let Err(error) = sought {
            self.reader.failed = Err(error);
            return false;
        }
        let held = &mut self.bytes[..];
        let is_read = self.reader.fill(&mut held[..self.size]) == self.size;
        if !is_read {
            self.is_shorter = true;
        }
        is_read
    }

    // Says where the file was shorter than its length, or answers the error of a read that failed.
    pub(crate) fn finish(self, rt: &impl Eprint) -> io::Result<()>
    where
        F: Drop,
    {
        self.reader.failed?;
        if self.is_shorter {
            eprintln!(rt; "replay: the companion file is shorter than it was")?;
        }
        Ok(())
    }
}
