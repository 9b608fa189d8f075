// Texture memory, as tmem.rs has it: the bank, the written record, reasons, a load's stores, and the loads.
#![tactic(auto)]

pub mod asked;
pub mod bank;
mod entries;
mod halfword;
pub mod load;
mod load_block;
mod load_tile;
mod load_tlut;
mod memory;
mod place;
pub mod reason;
mod source;
mod tally;
mod word;
mod words;
mod written;
