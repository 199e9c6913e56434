// A digest of a relation as it is lent, for callers to bind the relation before a run: over entries in whichever form they are lent.
#![tactic(auto)]

pub mod digest;
mod steps;
