// What a command of the bench comes to, and its answer as a line of text.
#![tactic(auto)]

pub mod answers;
pub mod record;
pub mod reply;
