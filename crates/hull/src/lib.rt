// The six tables of one hull: whether they belong together, and what they say of a pair (document 02, M-100).
#![tactic(auto)]

pub mod six;
