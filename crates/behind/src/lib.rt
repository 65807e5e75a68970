// Numbers behind a word: each behind a space, put into a lent slice from a place on.
#![tactic(auto)]

pub mod parts;
