// A record of a capture: sixteen bytes for the tile and the mode, then the bank.
#![tactic(auto)]

pub mod fields;
pub mod numbers;
