// One record of a replay.
ghost use Rattle.std.specs.Prelude.{◌≡◌, [], ◌∷◌};
ghost use Rattle.rules.specs.Replay.{carried, replay_call};
ghost use Rattle.rdp.specs.View.{replay_answered};

use crate::piece::Piece;
use crate::run::{OFFSET_AT, replay_next};
use rdp::answer::Replayed;
use rdp::refusal::Refusal;
use record::numbers::four_at;

// One record over a lent bank, written map and reasons, after a load of the number `last`. The companion file has `end` bytes, and
// `part` holds those from the record's offset on, of which exactly the stated ones are read. It answers the count of its stores, or for a
// key of its kept bytes, and the last number after it; or its refusal (1, 8, 10, 2, 3, 4, 11, 5, 18), with the
// buffers as they were lent. Its load is an ordinary one.
pub fn replay_record(
    bank: &mut [u8],
    written: &mut [u8],
    reasons: &mut [u8],
    bytes: &[u8],
    end: u64,
    part: &[u8],
    last: u32,
) -> Result<Replayed, Refusal>
    ensures { replay_answered last result (bank.new ∷ written.new ∷ reasons.new ∷ [])
        ≡ replay_call (carried bank.old written.old reasons.old last) bytes.now end
        part.now }
{
    let bank = bank.as_mut_array().ok_or(Refusal::Length)?;
    let written = written.as_mut_array().ok_or(Refusal::Length)?;
    let reasons = reasons.as_mut_array().ok_or(Refusal::Length)?;
    let piece = Piece {
        end,
        start: four_at(bytes, OFFSET_AT) as u64,
        held: part,
    };
    replay_next(bank, written, reasons, bytes, piece, last).unwrap_or(Err(Refusal::Beyond))
}
