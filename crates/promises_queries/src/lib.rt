// Coefficients, and which queries are refused, with which number and place: statements (specs/) with their proofs (proofs/). There is no code here.
#![tactic(auto)]
