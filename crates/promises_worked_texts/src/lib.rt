// Texts worked by hand, decided by the rules of acceptance: statements (specs/) with their proofs (proofs/). There is no code here.
#![tactic(auto)]
