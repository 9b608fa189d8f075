// The pictures of tmem.rs: the plain one and the lookup of a tile, alone or with the trail of their reads, each through a decoder
// that refers to the lent bank. Below them: a texel, a row of texels, a whole picture or its refusal.
#![tactic(auto)]

mod asked;
mod bank_decoder;
mod decode;
mod direct;
mod format;
mod kind;
pub mod linear;
mod load;
mod paint;
mod painter;
mod palette;
mod part;
pub mod picture;
mod place;
mod plan;
mod ready;
mod refused;
mod row;
mod rows;
mod sizes;
mod source_row;
mod source_rows;
mod table;
mod texel;
mod trail;
