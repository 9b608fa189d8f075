// The exports: every call on numbers and byte slices, for a host in C or Rust. The numbers of a tile and its mode come in the
// order of the lister's record. That they come one by one in each export, and that each load has a twin that is rejected, is the C
// interface, which stays as it is.
#![tactic(auto)]

pub mod answer;
pub mod files;
pub mod keys;
pub mod loads;
pub mod maps;
pub mod pictures;
pub mod rejects;
pub mod replay;
pub mod sampling;
pub mod splits;
mod tile;
pub mod version;
