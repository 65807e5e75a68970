// Cases worked by hand: the starred ones of document 01, and a sum table: statements (specs/) with their proofs (proofs/). There is no code here.
#![tactic(auto)]
