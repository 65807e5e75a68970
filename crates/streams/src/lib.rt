// The streams and the words of a program: one read of standard input, one write to standard output, and on standard error what failed. No contract can speak of what a
// read brings, nor of what becomes of a write.
#![tactic(auto)]

pub mod failing;
pub mod input;
pub mod output;
pub mod words;
