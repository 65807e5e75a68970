// Every query of an accepted table is answered, and what it answers: statements (specs/) with their proofs (proofs/). There is no code here.
#![tactic(auto)]
