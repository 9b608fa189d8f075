// The written map of a map of marks, as the programs that run cases lend it.
#![tactic(auto)]

pub mod number;
