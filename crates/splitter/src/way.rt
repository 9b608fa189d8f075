// The way of a body through questions, to the one group that it can be of.
ghost use Rattle.std.specs.Prelude.{◌≡◌, ◌*◌, ◌<◌, length, get_or};
ghost use Rattle.rules.specs.Split.{entry_limit};
ghost use Rattle.splitter.specs.Bodies.{body_size};
ghost use Rattle.splitter.specs.Way.{says_yes, Passes, Guides, Onto, Led, more};

use crate::entry::{BODY_SIZE, ENTRY_LIMIT};

// Where the ways go, and what each question asks: does the body have the byte values[g] at places[g]? (specs/Way.antt)
#[derive(Drop)]
pub(crate) struct Questions {
    pub(crate) links: [u16; 2 * ENTRY_LIMIT],
    pub(crate) places: [u16; ENTRY_LIMIT],
    pub(crate) values: [u8; ENTRY_LIMIT],
}

impl Questions {
    // The answer of a body to question g.
    fn is_yes(&self, body: &[u8; BODY_SIZE], g: usize) -> bool
        requires one { g < entry_limit }
        requires in_body { get_or self.now.places g 0 < body_size }
        ensures { result ≡ says_yes self.now.places self.now.values body.now g }
    {
        body[self.places[g] as usize] == self.values[g]
    }

    // From a slot of a body's way on, the first where the way ends or a question is answered with a yes.
    fn pass_noes(&self, body: &[u8; BODY_SIZE], groups: usize, slot: usize) -> usize
        requires guides { Guides self.now groups }
        requires slot_passed { (slot < 2 * groups) × Passes self.now body.now slot }
        ensures { Onto self.now body.now groups slot result }
    {
        let mut at = slot;
        loop {
            let next = self.links[at] as usize;
            if next <= at / 2 {
                return at;
            }
            if self.is_yes(body, next) {
                return at;
            }
            at = 2 * next + 1;
        }
    }

    // The slot where the way of a body ends, of `groups` groups. Noes are passed in a loop of their own: so the processor foretells
    // answers and goes on, where one loop for both waits for each (docs/SPEED.md).
    pub(crate) fn lead(&self, body: &[u8; BODY_SIZE], groups: usize) -> usize
        requires guides { Guides self.now groups }
        ensures { Led self.now body.now groups result }
    {
        let mut slot: usize = 0;
        loop {
            let stop = self.pass_noes(body, groups, slot);
            let next = self.links[stop] as usize;
            if next <= stop / 2 {
                return stop;
            }
            slot = 2 * next;
        }
    }

    // Question g, for a byte at a place, in the slot where a way ended.
    pub(crate) fn ask(&mut self, g: usize, slot: usize, place: usize, value: u8)
        requires guides { Guides self.old g }
        requires room { (g < entry_limit) × (slot < 2 * g) }
        requires place_inside { place < body_size }
        ensures { self.new ≡ more self.old g slot place value }
    {
        let before = self.links[slot];
        self.places[g] = place as u16;
        self.values[g] = value;
        self.links[slot] = g as u16;
        self.links[2 * g] = g as u16;
        self.links[2 * g + 1] = before;
    }
}
