// One line of a WAMIT file: blank, a title, a row that is refused or passed over, or a row that is used. Document 01, "Rows".
#![tactic(auto)]

pub mod columns;
mod fit;
pub mod heading;
pub mod layout;
pub mod ranges;
pub mod reading;
mod values;
