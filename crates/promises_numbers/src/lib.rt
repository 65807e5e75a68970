// What each call and query gives, by number, place and values: statements (specs/) with their proofs (proofs/). There is no code here.
#![tactic(auto)]
