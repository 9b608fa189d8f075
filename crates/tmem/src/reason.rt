// Why a load is rejected.
ghost use Rattle.std.specs.Prelude.{◌≡◌, false};
ghost use Rattle.rules.specs.Load.{reason_outside, reason_left};
ghost use Rattle.tmem.specs.Reasons.{reason_of};

// A load is ordinary, or its source was rejected, for a reason that has a number.
#[derive(Clone, Copy)]
pub enum Reason {
    Ordinary,
    Rejected(u32),
}

// The largest reason.
const REASON_MOST: u32 = 255;

impl Reason {
    // It is rejected, and the number is not a reason's.
    pub(crate) fn outside(self) -> bool
        ensures { result ≡ reason_outside (reason_of self) }
    {
        match self {
            Reason::Ordinary => false,
            Reason::Rejected(number) => (number == 0) | (REASON_MOST < number),
        }
    }

    // What the load leaves at each of its addresses.
    pub(crate) fn left(self) -> u8
        requires { reason_outside (reason_of self) ≡ false }
        ensures { result ≡ reason_left (reason_of self) }
    {
        match self {
            Reason::Ordinary => 0,
            Reason::Rejected(number) => number as u8,
        }
    }
}
