// The listing: every needed pair, once and in order, read by values alone: statements (specs/) with their proofs (proofs/). There is no code here.
#![tactic(auto)]
