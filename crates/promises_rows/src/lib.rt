// What the rows of a text say of a frequency, a heading and two nodes, with no table in it: statements (specs/) with their proofs (proofs/). There is no code here.
#![tactic(auto)]
