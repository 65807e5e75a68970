// What takes more of the script than its line: a piece of text for the reader, a sea, and a text whose refusal is to be explained.
#![tactic(auto)]

pub mod explaining;
pub mod pieces;
pub mod seas;
mod texts;
