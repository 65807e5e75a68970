// The bench, command by command: what it keeps, what each command is, and the answers that it writes.
#![tactic(auto)]

mod commands;
mod sending;
pub mod turns;
