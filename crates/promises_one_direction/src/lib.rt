// M-102: plus and minus 180 degrees are one direction: statements (specs/) with their proofs (proofs/). There is no code here.
#![tactic(auto)]
