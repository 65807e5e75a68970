// Six tables of one hull as the text that ProteusDS reads (document 02, M-100; the layout is source document 004's).
#![tactic(auto)]

mod line;
pub mod output;
