// A record's line as text: its refusal, a space, its count, and a line's end.
ghost use Rattle.std.specs.Prelude.{◌≡◌, [], ◌∷◌, ◌++◌, ◌+◌, ◌≤◌, length, take};
ghost use Rattle.rules.specs.Base.{over};
ghost use Rattle.rules.specs.Lister.{line_text};
ghost use Rattle.rules.specs.Replay.{replay_room};
ghost use Rattle.replaying.specs.Said.{numbers_of};

use decimal::number::put_number;
use rdp::answer::Replayed;
use rdp::refusal::Refusal;

// The two numbers of a line, from `at` on. (The lister's line has four. One function for both would take a list of numbers, which no
// caller has.)
fn put_numbers(refusal: u32, count: u32, out: &mut [u8], at: usize) -> usize
    requires { at + replay_room ≤ length out.old }
    ensures value { result ≡ at + length (line_text (refusal ∷ count ∷ [])) }
    ensures upper_bound { result ≤ at + replay_room }
    ensures out_after { out.new ≡ over (take at out.old ++ line_text (refusal ∷ count ∷ [])) out.old }
{
    let at = put_number(refusal, b' ', out, at).unwrap();
    put_number(count, b'\n', out, at).unwrap()
}

// A line's text from `at` on. The new end is answered.
pub(crate) fn put_line(answer: Result<Replayed, Refusal>, out: &mut [u8], at: usize) -> usize
    requires { at + replay_room ≤ length out.old }
    ensures value { result ≡ at + length (line_text (numbers_of answer)) }
    ensures upper_bound { result ≤ at + replay_room }
    ensures out_after { out.new ≡ over (take at out.old ++ line_text (numbers_of answer)) out.old }
{
    match answer {
        Ok(done) => put_numbers(0, done.count, out, at),
        Err(refusal) => put_numbers(refusal.number(), 0, out, at),
    }
}
