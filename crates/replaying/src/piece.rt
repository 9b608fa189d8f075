// The piece of the companion file that is at hand.
ghost use Rattle.std.specs.Prelude.{◌≡◌, ◌+◌, ◌-◌, ◌^◌, ◌<◌, ◌≤◌, length, take, drop, MatchOption};
ghost use Rattle.replaying.specs.Said.{Within};

// By the file's length, where the piece starts, and its bytes.
#[derive(Clone, Copy)]
pub(crate) struct Piece<'a> {
    pub(crate) end: u64,
    pub(crate) start: u64,
    pub(crate) held: &'a [u8],
}

impl<'a> Piece<'a> {
    // A part of the file, if the piece has all of it.
    pub(crate) fn part(self, offset: u64, size: u64) -> Option<&'a [u8]>
        requires { (offset < 2 ^ 32) × (size < 2 ^ 32) }
        ensures { MatchOption result (Within self.entry offset size → ⊥) (λ src. Within self.entry offset size
            × (src.now ≡ take size (drop (offset - self.entry.start) self.entry.held.now))) }
    {
        let from = offset.checked_sub(self.start)? as usize;
        self.held.get(from..from + size as usize)
    }
}
