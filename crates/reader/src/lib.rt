// The reader of a table's text: opening, pieces of text, closing. Document 01, "Rows" and "The sixteen numbers"; specs/Model.antt says what each does.
#![tactic(auto)]

mod feeding;
mod opening;
pub mod reader;
pub mod record;
pub mod validity;
