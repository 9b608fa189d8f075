// What the public calls answer beside a refusal, where it is more than one number.

// A load's count of stores, how many of their bytes came from past the source's end, and its number.
#[derive(Clone, Copy)]
pub struct Loaded {
    pub count: u32,
    pub made_up: u32,
    pub number: u32,
}

// A replayed record's count of stores, or of kept bytes, and the number of the last load after it.
#[derive(Clone, Copy)]
pub struct Replayed {
    pub count: u32,
    pub number: u32,
}

// The width and height of a picture that was read from a file.
#[derive(Clone, Copy)]
pub struct Size {
    pub width: u32,
    pub height: u32,
}

// How many entries are on each side.
#[derive(Clone, Copy)]
pub struct Sides {
    pub tuning: u32,
    pub held_out: u32,
}

// What is wrong at an address of an offered key.
#[derive(Clone, Copy, Debug, PartialEq, Eq)]
pub enum Wrong {
    // The byte is missing.
    Missing = 1,
    // It is left over.
    LeftOver = 2,
    // It has another value.
    AnotherValue = 3,
}

// The lowest wrong address of an offered key, and what is wrong there.
#[derive(Clone, Copy)]
pub struct Fault {
    pub address: u32,
    pub wrong: Wrong,
}

// Whether a tile calls for its lookup, and the extent to allocate for the picture.
#[derive(Clone, Copy)]
pub struct Sampled {
    pub lookup: bool,
    pub width: u32,
    pub height: u32,
}

// How many records of a run were replayed, where their text ends, and the number of the last load after them.
#[derive(Clone, Copy)]
pub struct Run {
    pub records: usize,
    pub end: usize,
    pub number: u32,
}
