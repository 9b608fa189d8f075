// The replay of a capture's loads, a record at a time.
ghost use Rattle.std.specs.Prelude.{◌≡◌, [], ◌∷◌};
ghost use Rattle.rules.specs.Replay.{carried, replay_call};
ghost use Rattle.tulonkasa.specs.View.{replay_answered};

use crate::answer::ReplayAnswer;
use replaying::single::replay_record;

// One record, after a load of the number `last`. The count of its stores, or for a key of its kept bytes, is answered, and the number of
// the last load after it. A load clears the reasons where it stores.
#[unsafe(no_mangle)]
pub extern "C" fn tk_replay_record(
    bank: &mut [u8],
    written: &mut [u8],
    reasons: &mut [u8],
    record: &[u8],
    end: u64,
    part: &[u8],
    last: u32,
) -> ReplayAnswer
    ensures { replay_answered result (bank.new ∷ written.new ∷ reasons.new ∷ [])
        ≡ replay_call (carried bank.old written.old reasons.old last) «record».now end
        part.now }
{
    let replayed = replay_record(bank, written, reasons, record, end, part, last);
    ReplayAnswer::of(replayed, last)
}
