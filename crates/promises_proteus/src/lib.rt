// M-100: the ProteusDS text: statements (specs/) with their proofs (proofs/). There is no code here.
#![tactic(auto)]
