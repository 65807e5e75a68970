// The running total of a force: two 64-bit words that are one whole number. Document 01, "Coefficients and forces".
#![tactic(auto)]

mod halves;
pub mod words;
