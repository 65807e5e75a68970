// What the mate reads of the force: the mean and the whole load in newtons or newton metres. Document 01, "Coefficients and forces".
#![tactic(auto)]

pub mod display;
