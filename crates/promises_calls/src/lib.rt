// One call of opening, piece and closing: its numbers, what it keeps and what it changes, and the text cut anywhere: statements (specs/) with their proofs (proofs/). There is no code here.
#![tactic(auto)]
