// Words and numbers as text: a pen puts them into a lent slice, a byte at a time, as far as there is room; and a line of text is an array with how much of it is text.
#![tactic(auto)]

pub mod line;
pub mod pen;
