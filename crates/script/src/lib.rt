// The words and numbers of a command line.
#![tactic(auto)]

pub mod numbers;
pub mod words;
