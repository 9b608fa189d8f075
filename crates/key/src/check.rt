// The check of a key that was made elsewhere: the lowest wrong address, and what is wrong there.
ghost use Rattle.std.specs.Prelude.{◌≡◌, ◌≢◌, true, ◌+◌, ◌<◌, ◌≤◌, Some};
ghost use Rattle.rules.specs.Calls.{check_call};
ghost use Rattle.rules.specs.Check.{Lowest, wrong_kind, checked};
ghost use Rattle.rules.specs.Tile.{bank_size};
ghost use Rattle.key.specs.Notes.{part_size};
ghost use Rattle.key.specs.Offer.{LowestOf, right_by, wrong_by, said_at};
ghost use Rattle.rdp.specs.View.{tile_of, check_answered, check_numbers, wrong_number};

use crate::cut::{PART, kept_byte};
use crate::key::{note_picture, whole};
use crate::reads::no_notes;
use rdp::answer::{Fault, Wrong};
use rdp::refusal::Refusal;
use rdp::tile::TileDescriptor;
use texdec::pair::Picture;
use tmem::bank::Bank;

// What is wrong at an address where something is.
#[tactic(auto, unfolding(rules::specs::Check::wrong_kind))]
fn wrong_kind(kept: bool, in_bank: u8, in_offer: u8) -> Wrong
    ensures { wrong_number result ≡ wrong_kind kept in_bank in_offer }
{
    if kept & (in_bank != 0) & (in_offer == 0) {
        return Wrong::Missing;
    }
    if !kept & (in_offer != 0) {
        return Wrong::LeftOver;
    }
    Wrong::AnotherValue
}

// An offered key beside the bank and the notes of what was read.
#[derive(Clone, Copy)]
struct Offer<'a> {
    bank: &'a [u8; Bank::SIZE],
    notes: &'a [u8; Bank::SIZE],
    key: &'a [u8; Bank::SIZE],
}

impl Offer<'_> {
    // It has the key's byte at an address: the bank's where it is noted, else zero.
    fn is_right(&self, at: usize) -> bool
        requires { at < bank_size }
        ensures { result ≡ right_by self.now.bank.now self.now.notes.now self.now.key.now at }
    {
        kept_byte(self.bank[at], self.notes[at]) == self.key[at]
    }

    // It has the key's bytes in a whole part.
    // A loop that no byte ends: `all` would end at a byte, and the processor then compares one at a time.
    fn is_part_right(&self, from: usize) -> bool
        requires { from + part_size ≤ bank_size }
        ensures { result ≡ true → Lowest from part_size
            (wrong_by self.now.bank.now self.now.notes.now self.now.key.now) (from + part_size) }
    {
        let mut right = true;
        for at in from..from + PART {
            right = right & self.is_right(at);
        }
        right
    }

    // The lowest wrong address of a part.
    fn each_byte(&self, from: usize) -> Option<usize>
        requires { from + part_size ≤ bank_size }
        ensures { LowestOf from part_size (wrong_by self.now.bank.now self.now.notes.now self.now.key.now) result }
    {
        (from..from + PART).find(|at| !self.is_right(*at))
    }

    // The same; most parts are right as a whole.
    fn lowest_in_part(&self, from: usize) -> Option<usize>
        requires { from + part_size ≤ bank_size }
        ensures { LowestOf from part_size (wrong_by self.now.bank.now self.now.notes.now self.now.key.now) result }
    {
        if self.is_part_right(from) {
            return None;
        }
        self.each_byte(from)
    }

    // The lowest wrong address.
    // A loop: the proof of `find_map` over the parts did not close.
    fn lowest_wrong(&self) -> Option<usize>
        ensures { LowestOf 0 bank_size (wrong_by self.now.bank.now self.now.notes.now self.now.key.now) result }
    {
        for part in 0..Bank::SIZE / PART {
            if let Some(at) = self.lowest_in_part(PART * part) {
                return Some(at);
            }
        }
        None
    }

    // What is wrong at an address, where something is.
    fn fault_at(&self, at: usize) -> Fault
        requires { at < bank_size }
        ensures { check_numbers (Some result)
            ≡ said_at self.now.bank.now self.now.notes.now self.now.key.now at }
    {
        Fault {
            address: at as u32,
            wrong: wrong_kind(self.notes[at] == 1, self.bank[at], self.key[at]),
        }
    }
}

// The check of a key against that of the picture.
fn check_picture(
    bank: &[u8; Bank::SIZE],
    picture: Picture,
    offer: &[u8; Bank::SIZE],
) -> Option<Fault>
    ensures { check_numbers result
        ≡ checked (tile_of picture.tile) picture.tlut picture.lane bank.now offer.now }
{
    let mut notes = no_notes();
    note_picture(bank, &mut notes, picture);
    let offered = Offer {
        bank,
        notes: &notes,
        key: offer,
    };
    let at = offered.lowest_wrong()?;
    Some(offered.fault_at(at))
}

// The lowest wrong address of the offer and what is wrong there, or none if it is the picture's key; or the refusal (1, 2, 3, 5).
pub fn check_key(
    bank: &[u8],
    tile: TileDescriptor,
    tlut: u32,
    lane: u32,
    offer: &[u8],
) -> Result<Option<Fault>, Refusal>
    ensures { check_answered result ≡ check_call bank.now (tile_of tile) tlut lane offer.now }
{
    let bank = whole(bank)?;
    let offer = whole(offer)?;
    let picture = Picture::new(tile, tlut, lane)?;
    Ok(check_picture(bank, picture, offer))
}
