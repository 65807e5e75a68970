// A text is accepted exactly when the rules hold, and the table is what its rows say all along: statements (specs/) with their proofs (proofs/). There is no code here.
#![tactic(auto)]
