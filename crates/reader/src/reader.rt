// The reader: it goes by value from call to call, and comes back changed with its answer.
ghost use Rattle.std.specs.Prelude.{◌≡◌, true, List, ◌≤◌, ℤ};
ghost use Rattle.table.specs.Closing.{closed_of};
ghost use Rattle.reader.specs.Valid.{valid_of};
ghost use Rattle.reader.specs.Model.{never, open_of, piece_of, close_of, read_on, state_of, out_of, settled_by, finished, refusal_place, barred_by, refusal, closed_as};

use crate::record::{Marks, Record};
use crate::{opening, validity};
use grid::nodes::Pair;
use row::reading::Choices;
use table::closing::Closed;
use table::{cells, closing};

// Where a refusal fell.
#[derive(Clone, Copy, PartialEq, Eq)]
pub enum Place {
    Nowhere,
    Line(u32),
    Pair(Pair),
}

// What a call comes to: more text may come, the table is accepted with so many frequencies and headings, or a refusal with its place.
#[derive(Clone, Copy, PartialEq, Eq)]
pub enum Answer {
    Going,
    Accepted(usize, usize),
    Refused(u8, Place),
}

// The reader that comes back, and its answer.
#[derive(Clone, Copy)]
pub struct Outcome {
    pub reader: Record,
    pub answer: Answer,
}

// The place of the refusal that a record is stuck with.
#[tactic(auto, unfolding(crate::specs::Model::refusal_place))]
fn stuck_place(r: Record) -> Place
    ensures { result ≡ refusal_place r }
{
    match r.marks.stage {
        11 => Place::Pair(r.pair),
        10 => Place::Nowhere,
        _ => Place::Line(r.marks.line),
    }
}

#[tactic(auto, unfolding(crate::specs::Model::refusal))]
pub fn refuse(r: Record, number: u8) -> Answer
    ensures { result ≡ refusal r number }
{
    if number < 3 {
        return Answer::Refused(number, Place::Nowhere);
    }
    Answer::Refused(number, stuck_place(r))
}

// The number that a piece and closing begin with: a valid record that is stuck repeats its own; 1; 2; and 0 where there is none.
#[tactic(auto, unfolding(crate::specs::Model::barred_by, crate::specs::Model::too_short))]
pub fn barred(r: Record, cells: usize, flags: usize) -> u8
    ensures { result ≡ barred_by r cells flags }
{
    let valid = validity::valid(r);
    if valid && validity::sticks(r.marks.stage) {
        return r.marks.stage;
    }
    if cells < cells::CELLS || flags < cells::FLAGS {
        return 1;
    }
    if valid && r.marks.stage == 1 {
        return 0;
    }
    2
}

// The bytes of a text and no more, for whoever looks on while a text is read. A record that is not open takes nothing in, nor one whose counts are past their limits.
pub fn read_on(mut r: Record, text: &[u8], cells: &mut [i32], flags: &mut [u8]) -> Record
    ensures { state_of result cells.new flags.new ≡ read_on text.now (state_of r cells.old flags.old) }
{
    if r.marks.lines <= 1_000_000 && r.marks.count <= 160 && r.marks.stage == 1 {
        r.feed(text, cells, flags);
    }
    r
}

impl Outcome {
    // A refusal, over the record that it leaves.
    fn refused(reader: Record, number: u8) -> Outcome
        ensures { result ≡ record { reader = reader; answer = refusal reader number } }
    {
        Outcome {
            reader,
            answer: refuse(reader, number),
        }
    }
}

impl Record {
    // An unfinished line is read as a line before closing asks for its pairs.
    #[tactic(auto, unfolding(crate::specs::Model::finished))]
    fn finish(&mut self, cells: &mut [i32], flags: &mut [u8])
        requires { self.old.marks.count ≤ 160 }
        ensures { state_of self.new cells.new flags.new ≡ finished (state_of self.old cells.old flags.old) }
    {
        if self.marks.count != 0 {
            self.end_line(cells, flags);
        }
    }

    // At its end: accepted, or stuck with 10 or 11. Nothing stays kept.
    fn at_end(self, stage: u8, pair: Pair) -> Record
        ensures { result ≡ record self { marks = closed_as stage self.marks; pair = pair } }
    {
        Record {
            marks: Marks {
                stage,
                count: 0,
                ..self.marks
            },
            pair,
            ..self
        }
    }

    // What closing asks once the text has ended.
    fn settle(self, flags: &[u8]) -> Outcome
        ensures { (cells : List ℤ) → out_of result cells flags.now ≡ settled_by (closed_of self.choices.coverage self.slots flags.now) (state_of self cells flags.now) }
    {
        match closing::close(self.choices.coverage, self.slots, flags) {
            Closed::Complete(frequencies, headings) => Outcome {
                reader: self.at_end(2, self.pair),
                answer: Answer::Accepted(frequencies, headings),
            },
            Closed::Missing(missing) => Outcome::refused(self.at_end(11, missing), 11),
            Closed::Empty => Outcome::refused(self.at_end(10, self.pair), 10),
        }
    }

    // A reader that was never opened.
    pub fn new() -> Record
        ensures { result ≡ never }
    {
        let choices = Choices {
            kind: 0,
            component: 0,
            coverage: 0,
        };
        opening::fresh_record(0, choices)
    }

    pub fn open(
        kind: u8,
        component: u8,
        coverage: u8,
        cells: &mut [i32],
        flags: &mut [u8],
    ) -> Outcome
        ensures { out_of result cells.new flags.new ≡ open_of (record { kind = kind; component = component; coverage = coverage }) cells.old flags.old }
    {
        if cells.len() < cells::CELLS || flags.len() < cells::FLAGS {
            return Outcome::refused(Record::new(), 1);
        }
        let choices = Choices {
            kind,
            component,
            coverage,
        };
        if !validity::valid_choices(choices) {
            return Outcome::refused(Record::new(), 2);
        }
        cells[..cells::CELLS].fill(0);
        flags[..cells::FLAGS].fill(0);
        Outcome {
            reader: opening::fresh_record(1, choices),
            answer: Answer::Going,
        }
    }

    // A piece of text, of any length, cut anywhere.
    pub fn piece(mut self, text: &[u8], cells: &mut [i32], flags: &mut [u8]) -> Outcome
        ensures { out_of result cells.new flags.new ≡ piece_of text.now (state_of self cells.old flags.old) }
    {
        let number = barred(self, cells.len(), flags.len());
        if number != 0 {
            return Outcome::refused(self, number);
        }
        self.feed(text, cells, flags);
        if self.marks.stage != 1 {
            return Outcome::refused(self, self.marks.stage);
        }
        Outcome {
            reader: self,
            answer: Answer::Going,
        }
    }

    // The end of the text.
    pub fn close(mut self, cells: &mut [i32], flags: &mut [u8]) -> Outcome
        ensures { out_of result cells.new flags.new ≡ close_of (state_of self cells.old flags.old) }
    {
        let number = barred(self, cells.len(), flags.len());
        if number != 0 {
            return Outcome::refused(self, number);
        }
        self.finish(cells, flags);
        if self.marks.stage != 1 {
            return Outcome::refused(self, self.marks.stage);
        }
        self.settle(flags)
    }
}
