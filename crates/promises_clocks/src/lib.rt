// Loads, forces and displays keep their promises by every clock that keeps the rule: statements (specs/) with their proofs (proofs/). There is no code here.
#![tactic(auto)]
