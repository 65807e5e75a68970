// Standard input, line by line and so many bytes at a time.
#![tactic(auto)]

pub mod input;
