// The field GF(2^128) of magnetar: elements, their words in lent slices, and sizes.
#![tactic(auto)]

pub mod gf128;
pub mod refusal;
pub mod sizes;
pub mod words;
