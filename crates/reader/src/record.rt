// The record of a table, which goes by value from call to call, back to opening.
use grid::nodes::{Pair, Slots};
use row::reading::Choices;

// How far the reading is. The stage is 0 where no table was ever opened, 1 while it is open, 2 once it is accepted, and the refusal's number, 3 to 11 or 17, once it is
// stuck: a number, since a record can hold any (`valid_of` tells which are right). `line` is that refusal's line. `lines` counts the lines begun, and `count` the bytes kept of a line that has not ended.
#[derive(Clone, Copy)]
pub struct Marks {
    pub stage: u8,
    pub line: u32,
    pub lines: u32,
    pub count: usize,
}

// The pair is the place of refusal 11; the bytes of a line that has not ended are the first `count` of `kept`. A reader is its record: it has the methods that open a
// table and take text in (src/reader.rt), and queries take it as it is.
#[derive(Clone, Copy)]
pub struct Record {
    pub marks: Marks,
    pub pair: Pair,
    pub choices: Choices,
    pub slots: Slots,
    pub kept: [u8; 160],
}
