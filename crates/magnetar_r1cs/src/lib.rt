// Sparse matrices and their products with a packed batch, and masks.
#![tactic(auto)]

mod lent;
mod masks;
pub mod r1cs;
mod walk;
