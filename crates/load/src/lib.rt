// What the waves do to the ship: coefficients between frequencies, and the force of a sea at a second. Document 01, "Coefficients and forces".
#![tactic(auto)]

pub mod coefficient;
mod corners;
pub mod force;
mod locating;
mod pairs;
pub mod refused;
mod waves;
