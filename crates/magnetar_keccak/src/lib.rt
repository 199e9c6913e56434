// Keccak-f[1600] of FIPS 202.
#![tactic(auto)]

pub mod keccak;
