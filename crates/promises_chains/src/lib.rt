// Opening and then any calls, each with the record of the call before: statements (specs/) with their proofs (proofs/). There is no code here.
#![tactic(auto)]
