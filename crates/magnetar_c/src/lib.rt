// The entries for C and Rust: each is the function of the same name below, under the name magnetar_NAME and by the C calling
// convention, with the same outcome. A slice is a pointer and a length; a struct goes by value. C has no Result and no generics: so a refusal
// is its number here, and entries are four slices.
#![tactic(auto)]

mod across;
pub mod hashing;
pub mod matrices;
pub mod rounds;
pub mod runs;
pub mod tables;
