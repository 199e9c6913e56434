// Eq tables and multilinear tables over the field, in lent slices of words.
#![tactic(auto)]

pub mod eq;
pub mod multilinear;
