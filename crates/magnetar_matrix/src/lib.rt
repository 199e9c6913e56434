// Matrices and batches: the definitions, the steps of a walk over a matrix's entries, and a test on public words.
#![tactic(auto)]

pub mod columns;
pub mod entries;
pub mod step;
