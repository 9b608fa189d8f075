// The splitter.
ghost use Rattle.std.specs.Prelude.{◌≡◌, [], ◌∷◌};
ghost use Rattle.rules.specs.Split.{split_call};
ghost use Rattle.tulonkasa.specs.View.{split_answered};

use crate::answer::SplitAnswer;

// A side for each entry, 0 tuning or 1 held out; how many are on each side is answered.
#[unsafe(no_mangle)]
pub extern "C" fn tk_split(count: u32, entries: &[u8], sides: &mut [u8]) -> SplitAnswer
    ensures { split_answered result (sides.new ∷ []) ≡ split_call count entries.now sides.old }
{
    splitter::split::split(count, entries, sides).into()
}
