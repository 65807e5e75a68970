// What is written, as a grammar of bytes: numbers, words of a line, lines of a text, and a text in a slice: statements (specs/) with their proofs (proofs/). There is no code here.
#![tactic(auto)]
