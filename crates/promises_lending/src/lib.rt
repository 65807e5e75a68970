// What is lent beyond the cells and flags of a table makes no difference: statements (specs/) with their proofs (proofs/). There is no code here.
#![tactic(auto)]
