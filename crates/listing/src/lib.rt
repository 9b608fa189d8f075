// The lister's text: a record's line as numbers and as text, and the text of an input.
#![tactic(auto)]

mod line;
pub mod list;
mod text;
