// The rounds of the prover, within one lent scratch slice.
#![tactic(auto)]

pub mod capture;
mod ends;
mod events;
mod guard;
pub mod inner;
mod outer;
pub mod rounds;
pub mod schedule_run;
mod shared;
