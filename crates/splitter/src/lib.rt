// The splitter, for the curator: a side, tuning or held out, for each entry, and one side for all entries of a group.
#![tactic(auto)]

mod entry;
mod group;
pub mod split;
mod way;
