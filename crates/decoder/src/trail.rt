// The trail of reads: two bytes an address, big end first.
ghost use Rattle.std.specs.Prelude.{◌≡◌, List, [], ◌∷◌, ℕ, ◌+◌, ◌*◌, ◌≤◌, length, take};
ghost use Rattle.rules.specs.Base.{over};
ghost use Rattle.rules.specs.Reading.{encoded};
ghost use Rattle.decoder.specs.Rows.{capped};

// An address goes to the front of the trail.
#[inline(always)]
fn note_read(at: usize, seen: &mut [u8])
    requires { 2 ≤ length seen.old }
    ensures { seen.new ≡ over (encoded (at ∷ [])) seen.old }
{
    // By hand: an address is a usize, and `to_be_bytes` would want a remainder and a cast first.
    seen[0] = (at / 256 % 256) as u8;
    seen[1] = (at % 256) as u8;
}

// Address i goes to its place behind those before it, if it is one of the first `count`.
#[inline(always)]
fn note_one(reads: [usize; 4], count: usize, i: usize, seen: &mut [u8])
    requires count_bound { (count ≤ 4) × (length reads ≡ 4) }
    requires count_in_bounds { 2 * count ≤ length seen.old }
    ensures { (old : List ℕ) → 2 * count ≤ length old
        → seen.old ≡ over (encoded (take (capped i count) reads)) old
        → seen.new ≡ over (encoded (take (capped (i + 1) count) reads)) old }
{
    if i < count {
        let s = 2 * i;
        note_read(reads[i], &mut seen[s..]);
    }
}

// The first `count` addresses, in their order. The loop always has four steps, so that the compiler can write them out; the test
// tells it what the contract says.
#[inline(always)]
pub(crate) fn note_reads(reads: [usize; 4], count: usize, seen: &mut [u8])
    requires count_bound { (count ≤ 4) × (length reads ≡ 4) }
    requires count_in_bounds { 2 * count ≤ length seen.old }
    ensures { seen.new ≡ over (encoded (take count reads)) seen.old }
{
    if 4 < count {
        return;
    }
    for i in 0..4usize {
        note_one(reads, count, i, seen);
    }
}
