// Lines of text: the listing of an accepted table (document 01, "Checked by hand"), a line at a time, and a refusal with its place.
#![tactic(auto)]

pub mod listing;
pub mod refusal;
pub mod writing;
