// Decimal numbers as text, for whatever writes text into a lent buffer. The laws of such writing stand here too
// (proofs/Texts.antt, proofs/Writes.antt).
#![tactic(auto)]

pub mod number;
