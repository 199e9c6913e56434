// Virtual Spartan: the refusals of both ends, the prover and the verifier of a batch.
#![tactic(auto)]

mod combine;
pub mod in_place;
mod products;
mod proving;
mod refusal;
mod stages;
pub mod virtual_spartan;
