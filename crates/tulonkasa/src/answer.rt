// What the exports answer, as C has it: a refusal, 0 for none, and the call's numbers. Where it refused they are 0, but the number of
// the last load, which is then the one passed.
ghost use Rattle.std.specs.Prelude.{◌≡◌, List, ℕ};
ghost use Rattle.rdp.specs.Refused.{refusal_of};
ghost use Rattle.rdp.specs.View.{answered as answered_by, load_answered as load_answered_by, replay_answered as replay_answered_by};
ghost use Rattle.rdp.specs.View.{size_answered as size_answered_by, split_answered as split_answered_by};
ghost use Rattle.rdp.specs.View.{yes_answered as yes_answered_by, reason_answered as reason_answered_by};
ghost use Rattle.rdp.specs.View.{check_answered as check_answered_by, sampling_answered as sampling_answered_by};
ghost use Rattle.tulonkasa.specs.View.{answered, load_answered, replay_answered, size_answered, split_answered};
ghost use Rattle.tulonkasa.specs.View.{yes_answered, reason_answered, check_answered, sampling_answered};

use rdp::answer::{Fault, Loaded, Replayed, Sampled, Sides, Size};
use rdp::refusal::Refusal;

// The number of a refusal, 0 for none.
pub(crate) fn refusal_number(tested: Result<(), Refusal>) -> u32
    ensures { result ≡ refusal_of tested }
{
    match tested {
        Ok(()) => 0,
        Err(refusal) => refusal.number(),
    }
}

// A picture's count of reads, a key's count of kept bytes, a written file's count of bytes.
#[repr(C)]
#[derive(Clone, Copy)]
pub struct Answer {
    pub refusal: u32,
    pub count: u32,
}

impl From<Result<u32, Refusal>> for Answer {
    ghost from_gives = { λ r a. (left : List (List ℕ)) → answered a left ≡ answered_by r left };

    fn from(called: Result<u32, Refusal>) -> Answer {
        match called {
            Ok(count) => Answer { refusal: 0, count },
            Err(refusal) => Answer {
                refusal: refusal.number(),
                count: 0,
            },
        }
    }
}

// A load's count of stores, how many of their bytes came from past the source's end, and its number.
#[repr(C)]
#[derive(Clone, Copy)]
pub struct LoadAnswer {
    pub refusal: u32,
    pub count: u32,
    pub made_up: u32,
    pub number: u32,
}

impl LoadAnswer {
    // After a load of the number `last`.
    pub(crate) fn of(called: Result<Loaded, Refusal>, last: u32) -> LoadAnswer
        ensures { (left : List (List ℕ)) → load_answered result left ≡ load_answered_by last called left }
    {
        match called {
            Ok(loaded) => LoadAnswer {
                refusal: 0,
                count: loaded.count,
                made_up: loaded.made_up,
                number: loaded.number,
            },
            Err(refusal) => LoadAnswer {
                refusal: refusal.number(),
                count: 0,
                made_up: 0,
                number: last,
            },
        }
    }
}

// A replayed record's count of stores, or of kept bytes, and the number of the last load after it.
#[repr(C)]
#[derive(Clone, Copy)]
pub struct ReplayAnswer {
    pub refusal: u32,
    pub count: u32,
    pub number: u32,
}

impl ReplayAnswer {
    // After a load of the number `last`.
    pub(crate) fn of(called: Result<Replayed, Refusal>, last: u32) -> ReplayAnswer
        ensures { (left : List (List ℕ)) → replay_answered result left ≡ replay_answered_by last called left }
    {
        match called {
            Ok(replayed) => ReplayAnswer {
                refusal: 0,
                count: replayed.count,
                number: replayed.number,
            },
            Err(refusal) => ReplayAnswer {
                refusal: refusal.number(),
                count: 0,
                number: last,
            },
        }
    }
}

// The width and height of a picture that was read from a file.
#[repr(C)]
#[derive(Clone, Copy)]
pub struct SizeAnswer {
    pub refusal: u32,
    pub width: u32,
    pub height: u32,
}

impl From<Result<Size, Refusal>> for SizeAnswer {
    ghost from_gives = { λ r a. (left : List (List ℕ)) → size_answered a left ≡ size_answered_by r left };

    fn from(called: Result<Size, Refusal>) -> SizeAnswer {
        match called {
            Ok(size) => SizeAnswer {
                refusal: 0,
                width: size.width,
                height: size.height,
            },
            Err(refusal) => SizeAnswer {
                refusal: refusal.number(),
                width: 0,
                height: 0,
            },
        }
    }
}

// How many entries are on each side.
#[repr(C)]
#[derive(Clone, Copy)]
pub struct SplitAnswer {
    pub refusal: u32,
    pub tuning: u32,
    pub held_out: u32,
}

impl From<Result<Sides, Refusal>> for SplitAnswer {
    ghost from_gives = { λ r a. (left : List (List ℕ)) → split_answered a left ≡ split_answered_by r left };

    fn from(called: Result<Sides, Refusal>) -> SplitAnswer {
        match called {
            Ok(sides) => SplitAnswer {
                refusal: 0,
                tuning: sides.tuning,
                held_out: sides.held_out,
            },
            Err(refusal) => SplitAnswer {
                refusal: refusal.number(),
                tuning: 0,
                held_out: 0,
            },
        }
    }
}

// A yes (1) or a no (0).
#[repr(C)]
#[derive(Clone, Copy)]
pub struct YesAnswer {
    pub refusal: u32,
    pub yes: u32,
}

impl From<Result<bool, Refusal>> for YesAnswer {
    ghost from_gives = { λ r a. yes_answered a ≡ yes_answered_by r };

    fn from(called: Result<bool, Refusal>) -> YesAnswer {
        match called {
            Ok(yes) => YesAnswer {
                refusal: 0,
                yes: yes as u32,
            },
            Err(refusal) => YesAnswer {
                refusal: refusal.number(),
                yes: 0,
            },
        }
    }
}

// The first reason among the bytes that a tile asks for, 0 for none.
#[repr(C)]
#[derive(Clone, Copy)]
pub struct ReasonAnswer {
    pub refusal: u32,
    pub reason: u32,
}

impl From<Result<u8, Refusal>> for ReasonAnswer {
    ghost from_gives = { λ r a. reason_answered a ≡ reason_answered_by r };

    fn from(called: Result<u8, Refusal>) -> ReasonAnswer {
        match called {
            Ok(reason) => ReasonAnswer {
                refusal: 0,
                reason: reason as u32,
            },
            Err(refusal) => ReasonAnswer {
                refusal: refusal.number(),
                reason: 0,
            },
        }
    }
}

// Whether an offered key is right (1) or not (0); where it is not, the lowest wrong address and what is wrong there: 1 missing, 2 left
// over, 3 another value.
#[repr(C)]
#[derive(Clone, Copy)]
pub struct CheckAnswer {
    pub refusal: u32,
    pub yes: u32,
    pub address: u32,
    pub wrong: u32,
}

impl From<Result<Option<Fault>, Refusal>> for CheckAnswer {
    ghost from_gives = { λ r a. check_answered a ≡ check_answered_by r };

    fn from(called: Result<Option<Fault>, Refusal>) -> CheckAnswer {
        match called {
            Ok(None) => CheckAnswer {
                refusal: 0,
                yes: 1,
                address: 0,
                wrong: 0,
            },
            Ok(Some(fault)) => CheckAnswer {
                refusal: 0,
                yes: 0,
                address: fault.address,
                wrong: fault.wrong as u32,
            },
            Err(refusal) => CheckAnswer {
                refusal: refusal.number(),
                yes: 0,
                address: 0,
                wrong: 0,
            },
        }
    }
}

// The sampling flag, and the allocation extent.
#[repr(C)]
#[derive(Clone, Copy)]
pub struct SamplingAnswer {
    pub refusal: u32,
    pub flag: u32,
    pub width: u32,
    pub height: u32,
}

impl From<Result<Sampled, Refusal>> for SamplingAnswer {
    ghost from_gives = { λ r a. sampling_answered a ≡ sampling_answered_by r };

    fn from(called: Result<Sampled, Refusal>) -> SamplingAnswer {
        match called {
            Ok(sampled) => SamplingAnswer {
                refusal: 0,
                flag: sampled.lookup as u32,
                width: sampled.width,
                height: sampled.height,
            },
            Err(refusal) => SamplingAnswer {
                refusal: refusal.number(),
                flag: 0,
                width: 0,
                height: 0,
            },
        }
    }
}
