// The tile record of rdp.rs, the units of its addresses, the range checks of its fields, the refusals and the answers.
#![tactic(auto)]

pub mod answer;
pub mod refusal;
pub mod tile;
pub mod units;
