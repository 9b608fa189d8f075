// The groups of entries: the group of an entry is one that is known, or a new one.
ghost use Rattle.std.specs.Prelude.{◌≡◌, List, ℕ, ◌+◌, ◌*◌, ◌<◌, ◌≤◌, length, set};
ghost use Rattle.rules.specs.Split.{entry_limit, entry_size, body_at, group_of};
ghost use Rattle.splitter.specs.Bodies.{body_size};
ghost use Rattle.splitter.specs.Way.{Guides, Known, more};

use crate::entry::{BODY_SIZE, ENTRY_LIMIT, body_at, differ};
use crate::way::Questions;

// How many groups are known, the entry that began each, and the questions that lead a body to its group.
#[derive(Drop)]
pub(crate) struct Groups {
    count: usize,
    firsts: [u16; ENTRY_LIMIT],
    questions: Questions,
}

impl Groups {
    // The first entry has begun group 0.
    pub(crate) fn new() -> Groups
        ensures { (f : ℕ → List ℕ) → Known f 1 result }
    {
        Groups {
            count: 1,
            firsts: [0; ENTRY_LIMIT],
            questions: Questions {
                links: [0; 2 * ENTRY_LIMIT],
                places: [0; ENTRY_LIMIT],
                values: [0; ENTRY_LIMIT],
            },
        }
    }

    // Entry i begins a group, with a question for a byte at a place, in the slot where its way ended.
    fn begin(&mut self, i: usize, slot: usize, place: usize, value: u8)
        requires guides { Guides self.old.questions self.old.count }
        requires room { (self.old.count < entry_limit) × (slot < 2 * self.old.count) × (i < entry_limit) }
        requires place_inside { place < body_size }
        ensures count_after { self.new.count ≡ self.old.count + 1 }
        ensures firsts_after { self.new.firsts ≡ set self.old.firsts self.old.count i }
        ensures questions_after { self.new.questions ≡ more self.old.questions self.old.count slot place value }
    {
        self.firsts[self.count] = i as u16;
        self.questions.ask(self.count, slot, place, value);
        self.count += 1;
    }

    // The group of entry i.
    pub(crate) fn group_of(&mut self, entries: &[u8], i: usize) -> usize
        requires room { i < entry_limit }
        requires entry_within { (i + 1) * entry_size ≤ length entries.now }
        requires known { Known (body_at entries.now) i self.old }
        ensures group { result ≡ group_of (body_at entries.now) i }
        ensures known_after { Known (body_at entries.now) (i + 1) self.new }
    {
        let body = body_at(entries, i);
        let slot = self.questions.lead(body, self.count);
        let group = self.questions.links[slot] as usize;
        let first = self.firsts[group] as usize;
        let place = differ(body, body_at(entries, first));
        if place == BODY_SIZE {
            return group;
        }
        let new = self.count;
        self.begin(i, slot, place, body[place]);
        new
    }
}
