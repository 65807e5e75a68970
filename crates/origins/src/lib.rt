// Where a table comes from: which line of its text first brought each slot, and which first set each cell. Document 02, M-103.
#![tactic(auto)]

pub mod memory;
