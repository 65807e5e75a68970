// M-101: columns that disagree, and the ranges of a row, in the papers' numbers: statements (specs/) with their proofs (proofs/). There is no code here.
#![tactic(auto)]
