// Two texts that differ only in what is passed over come to the same: statements (specs/) with their proofs (proofs/). There is no code here.
#![tactic(auto)]
