// The hash layer of magnetar: SHA3-256 and the transcript.
#![tactic(auto)]

pub mod hasher;
pub mod sha3;
mod sponge;
pub mod transcript;
