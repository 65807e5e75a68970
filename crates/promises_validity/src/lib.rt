// What a valid record is, in the papers' numbers: statements (specs/) with their proofs (proofs/). There is no code here.
#![tactic(auto)]
