// The table: the cells and flags that the caller lends, rows put into it, and the pairs that closing asks for. Document 01, "The table".
#![tactic(auto)]

pub mod cells;
pub mod closing;
pub mod entries;
pub mod pairs;
pub mod placing;
