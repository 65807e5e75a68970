// What a used row says, from its fields' exact decimals: statements (specs/) with their proofs (proofs/). There is no code here.
#![tactic(auto)]
