// Lists a capture. It reads records of 4,112 bytes from standard input to its end and writes a line for each: refusal,
// flag, distinct kept bytes, texels. A torn tail adds `8 0 0 0`, and empty input gives nothing. A read that fails ends the
// input: what was read is listed, and then the program ends with the error. A write that fails ends it at once.
#![tactic(auto)]

ghost use Rattle.std.specs.Prelude.{◌≡◌, ◌++◌, ◌+◌, ◌*◌, ◌/◌, ◌≤◌, length, take};
ghost use Rattle.rules.specs.Base.{over};
ghost use Rattle.rules.specs.Lister.{record_size, line_room, listing};
ghost use Rattle.lister.specs.Piece.{piece_room};
ghost use Rattle.pieces.specs.Text.{text_size};

use listing::list::{LINE_ROOM, RECORD, list};
use pieces::reader::{PieceReader, ReadPiece};
use pieces::text::{Text, WriteText};
use std::io;
use std::io::{Read, Write};

// What is read at a time, in records and in bytes, and the room of its lines with a torn tail's.
const RECORDS: usize = 16;

const PIECE: usize = RECORDS * RECORD;

const PIECE_ROOM: usize = (RECORDS + 1) * LINE_ROOM;

// Adds the lines of a piece of the input to the text.
fn list_piece(piece: &[u8], text: &mut Text)
    requires { text.old.end + line_room * (length piece.now / record_size + 1) ≤ text_size }
    ensures end_value { text.new.end ≡ text.old.end + length (listing piece.now) }
    ensures text_after { text.new.bytes ≡ over (take text.old.end text.old.bytes ++ listing piece.now) text.old.bytes }
{
    let listed = list(piece, &mut text.bytes[text.end..]);
    text.end += listed.unwrap();
}

// Reads a piece of the input, or what is left of it, and lists it. It answers whether there may be more.
fn list_next<R: Read>(input: &mut PieceReader<R>, piece: &mut [u8; PIECE], text: &mut Text) -> bool
    requires { text.old.end + piece_room ≤ text_size }
{
    let got = input.fill(piece);
    list_piece(&piece[..got], text);
    got == PIECE
}

// Lists the whole input. A proved loop has to end, and nothing says that an input does. So the loop counts its turns, up to a number
// that no run reaches.
fn list_all<R: Read, W: Write>(
    input: &mut PieceReader<R>,
    output: &mut W,
    piece: &mut [u8; PIECE],
    text: &mut Text,
) -> io::Result<()> {
    for _ in 0..u64::MAX {
        output.write_full(text, PIECE_ROOM)?;
        if !list_next(input, piece, text) {
            break;
        }
    }
    output.write_text(text)
}

// Room for a piece of the input.
fn piece_buffer() -> [u8; PIECE] {
    [0u8; PIECE]
}

fn main(rt: HostRuntime) -> io::Result<()> {
    let mut input = PieceReader {
        reader: rt.stdin(),
        failed: Ok(()),
    };
    let mut piece = piece_buffer();
    let mut text = Text::default();
    list_all(&mut input, &mut rt.stdout(), &mut piece, &mut text)?;
    input.failed
}
