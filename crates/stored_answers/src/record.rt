// The numbers of a record, big end first.
ghost use Rattle.std.specs.Prelude.{◌+◌, ◌<◌, ◌≤◌};

use rdp::refusal::Refusal;
use rdp::tile::TileDescriptor;
use rdp::units::{LineWords, WordAddr};

#[derive(Clone, Copy)]
pub(crate) struct Record {
    pub(crate) bytes: [u8; Record::SIZE],
}

impl Record {
    pub(crate) const SIZE: usize = 64;

    // A record that is to be read.
    pub(crate) fn zero() -> Record {
        Record {
            bytes: [0u8; Record::SIZE],
        }
    }

    pub(crate) fn one(&self, k: usize) -> u32
        requires { k < 64 }
    {
        self.bytes[k] as u32
    }

    pub(crate) fn two(&self, k: usize) -> u32
        requires { k + 1 < 64 }
    {
        u16::from_be_bytes([self.bytes[k], self.bytes[k + 1]]) as u32
    }

    pub(crate) fn four(&self, k: usize) -> u32
        requires { k + 3 < 64 }
    {
        let b = &self.bytes;
        u32::from_be_bytes([b[k], b[k + 1], b[k + 2], b[k + 3]])
    }

    // A length of at most `most` bytes.
    pub(crate) fn long(&self, k: usize, most: usize) -> usize
        requires { k + 3 < 64 }
        ensures { result ≤ most }
    {
        (self.four(k) as usize).min(most)
    }

    // The tile of the lister's sixteen bytes, which stand from 2 on.
    pub(crate) fn tile(&self) -> TileDescriptor {
        TileDescriptor {
            fmt: self.one(2),
            siz: self.one(3),
            palette: self.one(4),
            cms: self.one(6),
            cmt: self.one(7),
            masks: self.one(8),
            maskt: self.one(9),
            line: LineWords(self.two(10)),
            tmem_addr: WordAddr(self.two(12)),
            width: self.two(14),
            height: self.two(16),
        }
    }

    pub(crate) fn mode(&self) -> u32 {
        self.one(5)
    }

    pub(crate) fn lane(&self) -> u32 {
        self.one(1)
    }

    // The refusal and the first number answered are the stored ones. A call that refused answers the number 0.
    pub(crate) fn answered(&self, answer: Result<u32, Refusal>) -> bool {
        let refusal = match answer {
            Ok(_) => 0,
            Err(refusal) => refusal.number(),
        };
        (refusal == self.two(46)) & (answer.unwrap_or(0) == self.four(48))
    }
}
