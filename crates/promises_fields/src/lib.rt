// A field of the text, as a grammar of bytes and as an exact decimal: statements (specs/) with their proofs (proofs/). There is no code here.
#![tactic(auto)]
