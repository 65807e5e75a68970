// 8 to 11 over slots, cells and flags as they stand, whoever wrote them: statements (specs/) with their proofs (proofs/). There is no code here.
#![tactic(auto)]
