// The addresses that a tile can reach, as a map; whether it reaches a byte that a load wrote; the first reason among the bytes that
// it asks for; and the lane check. Byte w of a map has a bit for each of the eight bytes of the bank's word w.
#![tactic(auto)]

mod extent;
pub mod has_load;
pub mod lane;
pub mod reach;
mod reason;
mod refused;
pub mod rejection;
mod row;
mod rows;
mod span;
mod tile;
mod word;
