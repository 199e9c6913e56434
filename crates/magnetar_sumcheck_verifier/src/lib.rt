// One round of a sum-check, and rounds in a row: the definitions, the verifier's side, and what is proved of it.
#![tactic(auto)]

pub mod verify;
