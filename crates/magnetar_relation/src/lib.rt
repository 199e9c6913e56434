// A relation as it is lent: the shapes of its six matrices, and their entries one behind the other. Its refusals 4 to 7, what one entry
// does to a table, where a matrix's entries end, a login's z, the products of a part of the entries with all logins of a batch, and the
// first stray bit of a batch.
#![tactic(auto)]

pub mod login;
pub mod range;
pub mod rules;
pub mod shapes;
pub mod step;
pub mod stray;
pub mod walks;
