// The frequencies and headings that a table holds, each in its slot, and when they are valid. Document 01, "The table".
#![tactic(auto)]

pub mod nodes;
pub mod slots;
pub mod validity;
