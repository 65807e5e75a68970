// Which field of a refused row is at fault. Document 02, M-103.
#![tactic(auto)]

pub mod offending;
