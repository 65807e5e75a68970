// Where a frequency stands among those that a table holds: its two neighbours, and how it is weighed between them. Document 01, "Coefficients and forces".
#![tactic(auto)]

pub mod standing;
