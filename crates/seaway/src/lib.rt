// The sea that the waves make: its lines, and whether it is admissible. Document 01, "Coefficients and forces".
#![tactic(auto)]

pub mod sea;
