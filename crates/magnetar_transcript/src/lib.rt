// The transcript in place.
#![tactic(auto)]

pub mod transcript;
