// Virtual Spartan: the run of prover and verifier. Its definitions and theorems are in specs/ and proofs/.
#![tactic(auto)]

pub mod first;
pub mod refusal;
pub mod rounds;
pub mod scratch;
