// Pictures as files in the Netpbm PAM format. One spelling of a header is written; any that the format's description allows is read, of
// files with the same kind of texels.
#![tactic(auto)]

mod header;
mod line;
pub mod read;
mod refused;
mod word;
pub mod write;
