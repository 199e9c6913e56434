// Folds of a packed batch over its logins; the six matrices combined, and their value at a point, over entries in whichever form they are lent.
#![tactic(auto)]

pub mod combo;
pub mod eval;
pub mod fold;
mod table;
mod value;
