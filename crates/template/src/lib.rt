// A sentence with marks where its numbers go, filled and put into a lent slice.
#![tactic(auto)]

pub mod filling;
