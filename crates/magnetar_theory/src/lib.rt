// Definitions and laws only: specs/ and proofs/. There is no code here.
#![tactic(auto)]
