// What changes the bench: what it lends, the calls that open and close its table, a part of its record or of its cells and flags that is set as no call would, and what is kept in its six places.
#![tactic(auto)]

pub mod calls;
pub mod forging;
pub mod keeping;
pub mod memory;
