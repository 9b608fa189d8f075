// Buffers made from a seed, the digest of what a call leaves in one, and the written record of numbers that stands for the original's
// map of marks.
use marks::number::number_byte;

// A buffer of one byte over and over. A caller is told its length alone. (`cases` has this and the record below: a crate for lines as few
// would be more to read.)
pub(crate) fn all<const N: usize>(byte: u8) -> [u8; N] {
    [byte; N]
}

// Bytes made from the seed and what is added to it: those of a generator of numbers, or zeros for the seed 0.
pub(crate) fn made(out: &mut [u8], seed: u32, more: u32) {
    let mut next = seed.wrapping_add(more);
    for byte in out {
        next = next.wrapping_mul(1664525).wrapping_add(1013904223);
        *byte = if seed == 0 { 0 } else { next.to_be_bytes()[0] };
    }
}

// One byte given another value.
pub(crate) fn poke(out: &mut [u8], at: u32, value: u32) {
    if let Some(place) = out.get_mut(at as usize) {
        *place = value.to_le_bytes()[0];
    }
}

// The digest goes on over the bytes.
pub(crate) fn digest_on(start: u32, bytes: &[u8]) -> u32 {
    let mut digest = start;
    for byte in bytes {
        digest = digest.wrapping_mul(31).wrapping_add(*byte as u32);
    }
    digest
}

// The record of a map: its marked addresses have numbers.
pub(crate) fn number_marked(map: &[u8], written: &mut [u8]) {
    for (i, byte) in written.iter_mut().enumerate() {
        *byte = number_byte(map, i);
    }
}

// Eight addresses as a byte of a map: those that have a number are marked, the first in the lowest bit.
fn mark_byte(numbers: &[u8]) -> u8 {
    let mut marks = 0u8;
    for number in numbers.chunks_exact(2) {
        let is_given = number.iter().any(|byte| *byte != 0);
        marks = marks >> 1 | (is_given as u8) << 7;
    }
    marks
}

// The map of a record.
pub(crate) fn mark_numbered(written: &[u8], map: &mut [u8]) {
    for (marks, numbers) in map.iter_mut().zip(written.chunks_exact(16)) {
        *marks = mark_byte(numbers);
    }
}
