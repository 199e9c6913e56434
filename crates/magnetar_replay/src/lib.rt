// What the programs share that replay recorded answers: lines of queries in, answers out.
#![tactic(auto)]

pub mod line;
pub mod matrix;
pub mod replay;
pub mod show;
pub mod step;
