// The facts that a running total keeps fix every bit of it: statements (specs/) with their proofs (proofs/). There is no code here.
#![tactic(auto)]
