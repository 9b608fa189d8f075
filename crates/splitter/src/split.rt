// Sides of entries, 0 for tuning and 1 for held out.
ghost use Rattle.std.specs.Prelude.{◌≡◌, [], ◌∷◌, ◌*◌, ◌≤◌, length};
ghost use Rattle.rules.specs.Refusal.{first};
ghost use Rattle.rules.specs.Split.{entry_limit, entry_size, body_at, turn, sides, total, split_tests, split_call};
ghost use Rattle.rdp.specs.Refused.{refusal_of};
ghost use Rattle.rdp.specs.View.{split_answered};

use crate::entry::{ENTRY_LIMIT, ENTRY_SIZE};
use crate::group::Groups;
use rdp::answer::Sides;
use rdp::refusal::{Refusal, refuse};

// The side of a group: of every five the fifth is held out.
fn side_of(group: usize) -> u8
    ensures { result ≡ turn group }
{
    if group % 5 == 4 { 1 } else { 0 }
}

// The sides of entries, and how many are held out. The first entry begins group 0, on the tuning side.
fn write_sides(entries: &[u8], out: &mut [u8]) -> u32
    requires room { length out.old ≤ entry_limit }
    requires entries_size { length entries.now ≡ length out.old * entry_size }
    ensures sides_written { out.new ≡ sides (body_at entries.now) (length out.old) }
    ensures counted { result ≡ total 1 (sides (body_at entries.now) (length out.old)) }
{
    if out.is_empty() {
        return 0;
    }
    let mut groups = Groups::new();
    let mut held_out: u32 = 0;
    out[0] = 0;
    // By number: it is the entry's, and what was written through `iter_mut` a proof loses.
    for i in 1..out.len() {
        let group = groups.group_of(entries, i);
        let side = side_of(group);
        out[i] = side;
        held_out += side as u32;
    }
    held_out
}

// The refusals of a split: 16, then 17.
fn check_split(count: u32, entries: &[u8], out: &[u8]) -> Result<(), Refusal>
    ensures { refusal_of result ≡ first (split_tests count entries.now out.now) }
{
    let stated = count as usize;
    refuse(Refusal::Count, ENTRY_LIMIT < stated)?;
    refuse(Refusal::Entries, entries.len() != stated * ENTRY_SIZE)?;
    refuse(Refusal::Entries, out.len() != stated)
}

// A side for each of `count` entries, and how many are on each side.
pub fn split(count: u32, entries: &[u8], out: &mut [u8]) -> Result<Sides, Refusal>
    ensures { split_answered result (out.new ∷ []) ≡ split_call count entries.now out.old }
{
    check_split(count, entries, out)?;
    let held_out = write_sides(entries, out);
    Ok(Sides {
        tuning: count - held_out,
        held_out,
    })
}
