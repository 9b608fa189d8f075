// The sampling record of tile_sampling.rs: which picture a tile calls for, its extent, and what of it is visible.
#![tactic(auto)]

pub mod sampling;
pub mod visible;
