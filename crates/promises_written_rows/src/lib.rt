// Where cells and flags stand, and what a used row writes, in the paper's own numbers: statements (specs/) with their proofs (proofs/). There is no code here.
#![tactic(auto)]
