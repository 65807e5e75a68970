// A line as a grammar of its bytes, and what makes it blank, a title or no row of nine fields: statements (specs/) with their proofs (proofs/). There is no code here.
#![tactic(auto)]
