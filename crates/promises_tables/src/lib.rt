// A table holds what rows say: one row more, what closing asks, and what is held by values: statements (specs/) with their proofs (proofs/). There is no code here.
#![tactic(auto)]
