// Buffers before a call.
use marks::number::number_byte;
use tmem::bank::Bank;

// One byte more than a source may have.
pub(crate) const SOURCE: usize = 65537;

// The bytes of the largest picture.
pub(crate) const PICTURE: usize = 65536;

// One byte more than a bank has.
pub(crate) const LONG_BANK: usize = Bank::SIZE + 1;

// The written record of a map of one byte more than a map has.
pub(crate) const RECORD: usize = 2 * Bank::SIZE + 16;

// A buffer of one byte over and over. A caller is told its length alone. (`stored_answers` has this, the record below and a digest of its
// own: a crate for lines as few would be more to read.)
pub(crate) fn all<const N: usize>(byte: u8) -> [u8; N] {
    [byte; N]
}

// The bytes count up from `start` by `step`, mod 256.
pub(crate) fn count_up(bytes: &mut [u8], start: u32, step: u32) {
    let mut next = start.to_le_bytes()[0];
    for byte in bytes {
        *byte = next;
        next = next.wrapping_add(step.to_le_bytes()[0]);
    }
}

// Bytes that look like nothing in particular.
pub(crate) fn fill(bytes: &mut [u8]) {
    count_up(bytes, 11, 37);
}

// A byte, where the buffer has one.
pub(crate) fn put(bytes: &mut [u8], at: usize, byte: u8) {
    if let Some(place) = bytes.get_mut(at) {
        *place = byte;
    }
}

// The record in which the marked addresses of a map have numbers.
pub(crate) fn number_marked(map: &[u8], written: &mut [u8]) {
    for (i, byte) in written.iter_mut().enumerate() {
        *byte = number_byte(map, i);
    }
}

// Turns every bit over, and counts those that were set.
pub(crate) fn turn_over(bytes: &mut [u8]) -> u32 {
    let mut count = 0u32;
    for byte in bytes {
        count = count.wrapping_add(byte.count_ones());
        *byte = !*byte;
    }
    count
}
