// A text that is written out when it is nearly full.
ghost use Rattle.std.specs.Prelude.{◌≡◌, ◌+◌, ◌≤◌, length, OnOk};
ghost use Rattle.pieces.specs.Text.{text_size};

use std::io;
use std::io::Write;

// The bytes that were not yet written out, up to their end, and the room after them.
#[derive(Drop)]
pub struct Text {
    pub bytes: [u8; Text::SIZE],
    pub end: usize,
    pub ghost bytes_len: { length bytes ≡ text_size },
    pub ghost end_in_bounds: { end ≤ text_size },
}

impl Text {
    pub const SIZE: usize = 65536;
}

impl Default for Text {
    ghost is_default = { λ text. text.end ≡ 0 };

    fn default() -> Text {
        Text {
            bytes: [0u8; Text::SIZE],
            end: 0,
        }
    }
}

pub trait WriteText: Write {
    // Writes the text out.
    final fn write_text(&mut self, text: &mut Text) -> io::Result<()>
        ensures { OnOk result (text.new.end ≡ 0) }
    {
        self.write_all(&text.bytes[..text.end])?;
        text.end = 0;
        Ok(())
    }

    // Writes the text out once fewer than `room` bytes are left after it.
    final fn write_full(&mut self, text: &mut Text, room: usize) -> io::Result<()>
        ensures { OnOk result (room ≤ text_size → text.new.end + room ≤ text_size) }
    {
        if Text::SIZE - text.end < room {
            self.write_text(text)?;
        }
        Ok(())
    }
}

impl<W: Write> WriteText for W {}
