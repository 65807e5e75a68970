// What the bench is asked and answers without a change of its own things: the queries of its table and its sea, its cells and flags, what `explain` is asked, and the ProteusDS text of its places.
#![tactic(auto)]

mod doubles;
pub mod lent;
pub mod memory;
pub mod places;
pub mod queries;
pub mod question;
