// A run of records, with a piece of the companion file at hand.
ghost use Rattle.std.specs.Prelude.{◌≡◌, true, false, [], ◌∷◌, ◌+◌, ◌*◌, ◌≤◌, length, MatchOption};
ghost use Rattle.rules.specs.Replay.{replay_room, carried, at_hand, in_piece, record_count, piece, run_call};
ghost use Rattle.rdp.specs.View.{replay_answered, run_answered};
ghost use Rattle.replaying.specs.Run.{RanTo};
ghost use Rattle.replaying.specs.Said.{number_after, piece_of};

use crate::asks::{Asks, asks_in};
use crate::line::put_line;
use crate::piece::Piece;
use crate::step::{answer_key, carry_out};
use decimal::number::NUMBER_ROOM;
use rdp::answer::{Replayed, Run};
use rdp::refusal::{Refusal, refuse};
use tmem::bank::Bank;

// The bytes of a record.
pub const RECORD: usize = 48;

// Where a record has the offset of its part of the companion file, and the part's length.
pub const OFFSET_AT: u32 = 30;

pub const LENGTH_AT: u32 = 34;

// The bytes of the longest line: two numbers with a byte after each.
pub const LINE_ROOM: usize = 2 * NUMBER_ROOM;

// What a record answers, or none where its part is not at hand; then nothing changes.
pub(crate) fn replay_next(
    bank: &mut [u8; Bank::SIZE],
    written: &mut [u8; Bank::WRITTEN_SIZE],
    reasons: &mut [u8; Bank::REASONS_SIZE],
    bytes: &[u8],
    piece: Piece,
    last: u32,
) -> Option<Result<Replayed, Refusal>>
    ensures { MatchOption result
        ((at_hand (piece_of piece.entry) bytes.now ≡ false)
        × (bank.new ∷ written.new ∷ reasons.new ∷ [] ≡ bank.old ∷ written.old ∷ reasons.old ∷ []))
        (λ answer. (at_hand (piece_of piece.entry) bytes.now ≡ true)
        × (replay_answered last answer (bank.new ∷ written.new ∷ reasons.new ∷ [])
        ≡ in_piece (piece_of piece.entry) bytes.now (carried bank.old written.old reasons.old last))) }
{
    match asks_in(bytes, piece.end) {
        Err(refusal) => Some(Err(refusal)),
        Ok(Asks::Key(picture)) => Some(Ok(answer_key(bank, picture, last))),
        Ok(Asks::Load(asks)) => {
            let src = piece.part(asks.offset, asks.size)?;
            Some(carry_out(bank, written, reasons, asks, src, last))
        }
    }
}

// The last number after a record, which a refused one hands back.
fn number_after(answer: Result<Replayed, Refusal>, last: u32) -> u32
    ensures { result ≡ number_after answer last }
{
    match answer {
        Ok(done) => done.number,
        Err(_) => last,
    }
}

// Replays the records up to the first whose part is not at hand, and writes their lines at the front of `out`. The three buffers stay
// parameters of their own: as a struct of references each contract would have to say which references it left.
fn replay_ready(
    bank: &mut [u8; Bank::SIZE],
    written: &mut [u8; Bank::WRITTEN_SIZE],
    reasons: &mut [u8; Bank::REASONS_SIZE],
    input: &[u8],
    piece: Piece,
    out: &mut [u8],
    last: u32,
) -> Run
    requires { replay_room * record_count input.now ≤ length out.old }
    ensures { RanTo (piece_of piece.entry) input.now (carried bank.old written.old reasons.old last) out.old
        (carried bank.new written.new reasons.new result.number) out.new result.records result.end }
{
    let mut run = Run {
        records: 0,
        end: 0,
        number: last,
    };
    for bytes in input.chunks(RECORD) {
        let Some(answer) = replay_next(bank, written, reasons, bytes, piece, run.number) else {
            return run;
        };
        run = Run {
            records: run.records + 1,
            end: put_line(answer, out, run.end),
            number: number_after(answer, run.number),
        };
    }
    run
}

// Replays the records of an input after a load of the number `last`, up to the first whose part of the companion file is not in the piece
// at hand. It answers how many those are, where their lines end, at the front of `out`, and the last number after them; or its refusal
// (1, 6), and every buffer as it was lent. With the whole file at hand, every record is replayed. After the
// 65,535th load each further one is refused with 18, and keys go on.
pub fn replay_run(
    bank: &mut [u8],
    written: &mut [u8],
    reasons: &mut [u8],
    input: &[u8],
    end: u64,
    start: u64,
    held: &[u8],
    out: &mut [u8],
    last: u32,
) -> Result<Run, Refusal>
    ensures { run_answered last result (bank.new ∷ written.new ∷ reasons.new ∷ out.new ∷ [])
        ≡ run_call (carried bank.old written.old reasons.old last) input.now
        (piece end start held.now) out.old }
{
    let bank = bank.as_mut_array().ok_or(Refusal::Length)?;
    let written = written.as_mut_array().ok_or(Refusal::Length)?;
    let reasons = reasons.as_mut_array().ok_or(Refusal::Length)?;
    refuse(
        Refusal::Buffer,
        out.len() < LINE_ROOM * input.len().div_ceil(RECORD),
    )?;
    let piece = Piece { end, start, held };
    Ok(replay_ready(bank, written, reasons, input, piece, out, last))
}
