// The key of a picture: the bank with every byte that making the picture reads kept, and all others zero. What it reads is noted a
// byte for each address of the bank. And the check of a key that was made elsewhere.
#![tactic(auto)]

pub mod check;
pub mod cut;
mod indices;
pub mod key;
mod reads;
mod rows;
mod words;
