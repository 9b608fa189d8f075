// Word addresses, the lengths of lines and byte addresses, kept apart. A word is eight bytes, and `bytes` is the eightfold step.
ghost use Rattle.std.specs.Prelude.{◌≡◌, ◌+◌, ◌*◌, ◌%◌};
ghost use Rattle.rules.specs.Picture.{swap_odd};
ghost use Rattle.rules.specs.Tile.{bank_words};

// An address in 64-bit words.
#[derive(Clone, Copy)]
pub struct WordAddr(pub u32);

// The length of a line, in 64-bit words.
#[derive(Clone, Copy)]
pub struct LineWords(pub u32);

// The length of a line, in bytes.
#[derive(Clone, Copy)]
pub struct LineBytes(pub usize);

// An address in bytes, not yet wrapped at the bank's end.
#[derive(Clone, Copy)]
pub struct ByteAddr(pub usize);

impl WordAddr {
    // The byte at which the word starts.
    pub fn bytes(self) -> ByteAddr
        ensures { result.0 ≡ 8 * self.0 }
    {
        let word = self.0;
        ByteAddr(8 * word as usize)
    }

    // The word at which a row starts, where row 0 starts here, wrapped at the bank's end.
    pub fn row(self, line: LineWords, row: u32) -> WordAddr
        ensures { result.0 ≡ (self.0 + row * line.0) % bank_words }
    {
        let words = self.0 as usize + row as usize * line.0 as usize;
        WordAddr((words % 512) as u32)
    }
}

impl LineWords {
    // The bytes of a line.
    pub fn bytes(self) -> LineBytes
        ensures { result.0 ≡ 8 * self.0 }
    {
        let words = self.0;
        LineBytes(8 * words as usize)
    }
}

// On odd rows the two halves of each word change places.
pub fn swap_odd_line(addr: usize, odd: bool) -> usize
    ensures { result ≡ swap_odd odd addr }
{
    addr ^ (odd as usize * 4)
}
