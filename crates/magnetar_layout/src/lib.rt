// The limits, the tests of sizes and lengths, and the layouts of the segments over the witness columns.
#![tactic(auto)]

pub mod layout;
pub mod limits;
pub mod tests;
