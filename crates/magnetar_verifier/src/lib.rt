// The verifier's checks 21 to 29 with the draws as plain elements in a slice, and the claims that an accepted run leaves.
#![tactic(auto)]

pub mod claims;
pub mod end;
mod found;
pub mod outer;
