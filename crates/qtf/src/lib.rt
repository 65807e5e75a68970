// What stands in a line of the text that ProteusDS reads: frequencies, headings, and the matrix row of a pair (document 02, M-100; names and columns are source document
// 004's).
#![tactic(auto)]

pub mod writing;
