// What a load counts: its stores, and how many of their bytes are made up, since they come from past the source's end.
ghost use Rattle.std.specs.Prelude.{◌≡◌, ◌+◌, ◌<◌, ◌^◌};
ghost use Rattle.tmem.specs.Part.{no_tally, plus_tally};

// The stores of a load or of a part of it.
#[derive(Clone, Copy)]
pub(crate) struct Tally {
    pub(crate) count: u32,
    pub(crate) made_up: u32,
}

impl Tally {
    // No stores yet.
    pub(crate) fn none() -> Tally
        ensures { result ≡ no_tally }
    {
        Tally {
            count: 0,
            made_up: 0,
        }
    }

    // These stores and more.
    pub(crate) fn plus(self, more: Tally) -> Tally
        requires count_bound { self.count + more.count < 2 ^ 32 }
        requires made_up_bound { self.made_up + more.made_up < 2 ^ 32 }
        ensures { result ≡ plus_tally self more }
    {
        Tally {
            count: self.count + more.count,
            made_up: self.made_up + more.made_up,
        }
    }
}
