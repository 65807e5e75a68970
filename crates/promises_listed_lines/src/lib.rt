// The lines of the listing, byte for byte: statements (specs/) with their proofs (proofs/). There is no code here.
#![tactic(auto)]
