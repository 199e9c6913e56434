// The plain row check: the first stray bit, or the first row that does not hold.
#![tactic(auto)]

pub mod check;
mod rows;
