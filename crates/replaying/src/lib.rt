// The replay of a capture's loads: one record over a lent bank, written map and last number, and a run of records that writes its lines.
#![tactic(auto)]

mod asks;
mod line;
mod loading;
mod piece;
pub mod run;
pub mod single;
mod step;
