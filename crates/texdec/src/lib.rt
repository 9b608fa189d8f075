// The formats of texdec.rs: which pairs are accepted, and how their bytes become four channels.
#![tactic(auto)]

mod channel;
pub mod entry;
pub mod format;
pub mod ia16;
pub mod ia4;
pub mod ia8;
pub mod nibble;
pub mod pair;
pub mod palette;
pub mod rgba16;
