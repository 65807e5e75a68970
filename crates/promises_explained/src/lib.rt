// M-103: why a text was refused: statements (specs/) with their proofs (proofs/). There is no code here.
#![tactic(auto)]
