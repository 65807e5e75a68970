// What explains a refusal, as a line of the bench. Document 02, M-103.
#![tactic(auto)]

pub mod explanation;
