// z(k) in each quarter of the turn, in the table's own entries: statements (specs/) with their proofs (proofs/). There is no code here.
#![tactic(auto)]
