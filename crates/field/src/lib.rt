// A field of a row: its form, its exact decimal, and its value in a unit. Document 01, "Numbers" and "Rows".
#![tactic(auto)]

pub mod decimal;
pub mod form;
pub mod units;
