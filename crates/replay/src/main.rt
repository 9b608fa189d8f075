// Replays a capture's loads: `replay COMPANION < RECORDS`. It reads records of 48 bytes from standard input to its end and writes a
// line for each: its refusal, and the count of its stores, or for a key of its kept bytes. After the 65,535th load each further one
// gives `18 0`, and keys go on. A torn tail gives `8 0`, and empty input nothing. A load takes its bytes from the companion file, of
// which a piece is held at a time. Where that file cannot be used, a sentence on standard error says so, and no line is written. Where
// it is shorter than its length, a sentence says so after the lines of the records before, and that is the end. A read that fails ends
// the input: the lines of what was read are written, and then the program ends with the error. A write that fails ends it at once.
#![tactic(auto)]

mod companion;

ghost use Rattle.std.specs.Prelude.{◌≡◌, ◌+◌, ◌≤◌, length, OnOk};
ghost use Rattle.pieces.specs.Text.{text_size};
ghost use Rattle.replay.specs.Piece.{piece_room};

use companion::{Companion, Opened};
use pieces::reader::{PieceReader, ReadPiece};
use pieces::text::{Text, WriteText};
use record::numbers::four_at;
use replaying::run::{LENGTH_AT, LINE_ROOM, OFFSET_AT, RECORD, replay_run};
use std::fs::File;
use std::io::{ErrorKind, Read, Seek, Write};
use std::rt::Files;
use std::{env, io};
use tmem::bank::Bank;

// The records that are read at a time, their bytes, and the room of their lines.
const RECORDS: usize = 1365;

const PIECE: usize = RECORDS * RECORD;

const PIECE_ROOM: usize = RECORDS * LINE_ROOM;

// What the records change: the bank, its written map, its reasons and the number of the last load, which bytes of the companion file
// are held, and the text. A record has no reason, so the reasons stay zero.
#[derive(Drop)]
struct Replayer<F> {
    bank: [u8; Bank::SIZE],
    written: [u8; Bank::WRITTEN_SIZE],
    reasons: [u8; Bank::REASONS_SIZE],
    last: u32,
    companion: Companion<F>,
    text: Text,
}

// The bytes of the first records of an input, of which the last may be torn.
fn bytes_of(records: usize, input: &[u8]) -> usize
    ensures { result ≤ length input.now }
{
    records.saturating_mul(RECORD).min(input.len())
}

impl<F: Read + Seek> Replayer<F> {
    // Before the first record.
    fn new(opened: Opened<F>) -> Replayer<F>
        ensures { result.text.end ≡ 0 }
    {
        let fresh = Bank::fresh();
        let bank = fresh.bytes;
        Replayer {
            bank,
            written: [0u8; Bank::WRITTEN_SIZE],
            reasons: [0u8; Bank::REASONS_SIZE],
            last: 0,
            companion: Companion::new(opened),
            text: Text::default(),
        }
    }

    // Replays the records whose part is held, from the first on, and adds their lines to the text. It answers how many bytes of the
    // records that were.
    fn replay_held(&mut self, records: &[u8]) -> usize
        requires { self.old.text.end + piece_room ≤ text_size }
        ensures { result ≤ length records.now }
    {
        let ran = replay_run(
            &mut self.bank,
            &mut self.written,
            &mut self.reasons,
            records,
            self.companion.end,
            self.companion.start,
            self.companion.held(),
            &mut self.text.bytes[self.text.end..],
            self.last,
        );
        // No refusal comes: the buffers have their lengths, and the lines find room.
        let Ok(run) = ran else {
            return 0;
        };
        self.text.end += run.end;
        self.last = run.number;
        bytes_of(run.records, records)
    }

    // Holds the part of the next record, if one is left, and answers whether to go on.
    fn hold_next(&mut self, records: &[u8]) -> bool
        ensures { self.new.text ≡ self.old.text }
    {
        records.is_empty()
            || self
                .companion
                .hold(four_at(records, OFFSET_AT), four_at(records, LENGTH_AT))
    }

    // Replays a piece of the records: by turns those whose part is held, and the part of the next is held. It answers whether to go on.
    // A proved loop has to end, and nothing says that reads of a file bring the next record its part. So the loop counts its turns, up
    // to a number that no run reaches.
    fn replay_piece<W: Write>(&mut self, output: &mut W, records: &[u8]) -> io::Result<bool>
        requires { self.old.text.end + piece_room ≤ text_size }
        ensures { OnOk result (self.new.text.end + piece_room ≤ text_size) }
    {
        let mut rest = records;
        for _ in 0..u64::MAX {
            if rest.is_empty() {
                break;
            }
            let done = self.replay_held(rest);
            rest = &rest[done..];
            output.write_full(&mut self.text, PIECE_ROOM)?;
            if !self.hold_next(rest) {
                return Ok(false);
            }
        }
        Ok(true)
    }

    // Replays all records, a piece of them at a time, and writes the rest of the text out.
    fn replay_all<R: Read, W: Write>(
        &mut self,
        input: &mut PieceReader<R>,
        output: &mut W,
        records: &mut [u8; PIECE],
    ) -> io::Result<()>
        requires { self.old.text.end + piece_room ≤ text_size }
    {
        for _ in 0..u64::MAX {
            let got = input.fill(records);
            if !self.replay_piece(output, &records[..got])? || got < PIECE {
                break;
            }
        }
        output.write_text(&mut self.text)
    }
}

// Room for a piece of the records.
fn piece_buffer() -> [u8; PIECE] {
    [0u8; PIECE]
}

// The system's words for an error, without its number.
fn words_of(error: &str) -> &str {
    match error.split_once(" (os error ") {
        Some((words, _)) => words,
        None => error,
    }
}

// Says on standard error why the companion file cannot be used.
fn say_unusable(rt: &(impl Eprint + Alloc), path: &str, error: io::Error) -> io::Result<()> {
    let error = error.to_string(rt.alloc())?;
    let words = words_of(error.as_str());
    eprintln!(rt; "replay: the companion file {path}: {words}")
}

// Replays with a companion file that is open.
fn replay_with<F: Read + Seek + Drop>(
    rt: &(impl Input + Print + Eprint),
    opened: Opened<F>,
) -> io::Result<()> {
    let mut replayer = Replayer::new(opened);
    let mut records = piece_buffer();
    let mut input = PieceReader {
        reader: rt.reader(),
        failed: Ok(()),
    };
    let done = replayer.replay_all(&mut input, &mut io::writer(rt), &mut records);
    replayer.companion.finish(rt)?;
    done?;
    input.failed
}

// Opens the companion file, and replays with it.
fn replay(rt: &(impl Files + Input + Print + Eprint + Alloc), path: &str) -> io::Result<()> {
    match File::open(rt, path).and_then(|file| Opened::new(file)) {
        Ok(opened) => replay_with(rt, opened),
        Err(error) => say_unusable(rt, path, error),
    }
}

fn main(rt: HostRuntime) -> io::Result<()> {
    let mut args = match env::args(&rt) {
        Ok(args) => args.skip(1),
        Err(error) if error.kind() == ErrorKind::InvalidData => {
            return eprintln!(rt; "replay: the companion file's name is not UTF-8");
        }
        Err(error) => return Err(error),
    };
    match (args.next(), args.next()) {
        (Some(path), None) => replay(&rt, path.as_str()),
        _ => eprintln!(rt; "replay: name the companion file: replay COMPANION < RECORDS"),
    }
}
