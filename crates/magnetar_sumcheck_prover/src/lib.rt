// The prover's messages of Spartan's outer and inner sum-checks, and the public factors.
#![tactic(auto)]

pub mod engine;
pub mod public;
