// The explainer: like the reader it goes by value from call to call, and comes back changed with its answer.
ghost use Rattle.std.specs.Prelude.{◌≡◌, ◌==◌, List, ◌++◌, ℕ, ◌≤◌, ℤ, length, drop, replicate};
ghost use Rattle.std.specs.List.{position};
ghost use Rattle.reader.specs.Model.{state_of, going};
ghost use Rattle.refusals.specs.Numbered.{number_in};
ghost use Rattle.origins.specs.Memory.{lines_lent};
ghost use Rattle.explain.specs.Model.{reading_of, stepped_of, explained_of, fresh_with, next_byte, next_bytes, open_for, piece_for, ended_line, closed_for, close_barred, close_for};

use origins::memory;
use origins::memory::Origins;
use reader::reader::Answer;
use reader::record::Record;
use reasons::explanation;
use reasons::explanation::{Explanation, Stated};
use refusals::refusal::Refusal;
use table::cells;

// A reader, the refusal that is to be explained, and which line brought each slot. Which line set each cell stands in what the caller lends.
#[derive(Clone, Copy)]
pub struct Explainer {
    pub reader: Record,
    pub stated: Stated,
    pub origins: Origins,
}

// What opening and a piece come to: the reader's own answer.
#[derive(Clone, Copy)]
pub struct Step {
    pub explainer: Explainer,
    pub answer: Answer,
}

// What closing comes to: what the text gives, by the reader, and what explains the refusal that was stated.
#[derive(Clone, Copy)]
pub struct Told {
    pub explainer: Explainer,
    pub given: Answer,
    pub explanation: Explanation,
}

// How many bytes there are before the first line feed, where there is one.
fn line_end(text: &[u8]) -> Option<usize>
    ensures { result ≡ position (λ b. b == 10) text.now }
{
    text.iter().position(|b| *b == b'\n')
}

// What a piece comes to: more text may come, or the refusal that a line brought.
#[tactic(auto, unfolding(reader::specs::Model::going, reader::specs::Model::repeated))]
fn answer_of(r: Record) -> Answer
    ensures { (cells : List ℤ) (flags : List ℕ) → result ≡ (going (state_of r cells flags)).answer }
{
    if r.marks.stage == 1 {
        Answer::Going
    } else {
        reader::reader::refuse(r, r.marks.stage)
    }
}

// The cells, flags and lines are lent by each call (`open`, `piece` and `close` of README), and the two counts are asked for, since a caller's record may be any.
impl Explainer {
    // An explainer before any row.
    fn fresh_with(reader: Record, stated: Stated) -> Self
        ensures { result ≡ fresh_with reader stated }
    {
        Explainer {
            reader,
            stated,
            origins: Origins::none_yet(),
        }
    }

    // The line feed of a line: its row is read before the reader takes the line feed in, since the reader then keeps the line no more.
    fn end_line(mut self, cells: &mut [i32], flags: &mut [u8], lines: &mut [u32]) -> Self
        requires { (self.reader.marks.lines ≤ 1_000_000) × (self.reader.marks.count ≤ 160) }
        ensures { reading_of result cells.new flags.new lines.new ≡ next_byte 10 (reading_of self cells.old flags.old lines.old) }
    {
        let row = explanation::row_kept(self.reader);
        self.reader = reader::reader::read_on(self.reader, b"\n", cells, flags);
        self.origins = self.origins.recall(row, self.reader, lines);
        self
    }

    // The bytes of a piece. Those up to a line feed go to the reader at once: they leave what is remembered as it is.
    fn read(mut self, text: &[u8], cells: &mut [i32], flags: &mut [u8], lines: &mut [u32]) -> Self
        requires { (self.reader.marks.lines ≤ 1_000_000) × (self.reader.marks.count ≤ 160) }
        ensures { reading_of result cells.new flags.new lines.new ≡ next_bytes text.now (reading_of self cells.old flags.old lines.old) }
    {
        let mut rest = text;
        while let Some(n) = line_end(rest) {
            let (line, behind) = rest.split_at(n);
            self.reader = reader::reader::read_on(self.reader, line, cells, flags);
            self = self.end_line(cells, flags, lines);
            rest = &behind[1..];
        }
        self.reader = reader::reader::read_on(self.reader, rest, cells, flags);
        self
    }

    // The refusal that closing begins with: a reader that is stuck is no refusal here, since it is what is explained.
    #[tactic(auto, unfolding(crate::specs::Model::close_barred, reader::specs::Model::too_short))]
    fn close_barred(self, cells: &[i32], flags: &[u8], lines: &[u32]) -> Result<(), Refusal>
        ensures { number_in result ≡ close_barred (reading_of self cells.now flags.now lines.now) }
    {
        let lent = flags.len().min(lines.len());
        if cells.len() < cells::CELLS || lent < cells::FLAGS {
            Err(Refusal::ShortBuffer)
        } else if reader::reader::barred(self.reader, cells.len(), lent) == 2 {
            Err(Refusal::NotValid)
        } else {
            Ok(())
        }
    }

    // An unfinished line is ended as a line feed ends it.
    #[tactic(auto, unfolding(crate::specs::Model::ended_line))]
    fn ended(self, cells: &mut [i32], flags: &mut [u8], lines: &mut [u32]) -> Self
        requires { (self.reader.marks.lines ≤ 1_000_000) × (self.reader.marks.count ≤ 160) }
        ensures { reading_of result cells.new flags.new lines.new ≡ ended_line (reading_of self cells.old flags.old lines.old) }
    {
        if self.reader.marks.count == 0 {
            self
        } else {
            self.end_line(cells, flags, lines)
        }
    }

    // The reader is closed, and what it answers is compared with what is stated.
    #[tactic(auto, unfolding(crate::specs::Model::closed_for))]
    fn closed(mut self, cells: &mut [i32], flags: &mut [u8], lines: &[u32]) -> Told
        ensures { explained_of result cells.new flags.new lines.now ≡ closed_for (reading_of self cells.old flags.old lines.now) }
    {
        let o = self.reader.close(cells, flags);
        self.reader = o.reader;
        Told {
            explainer: self,
            given: o.answer,
            explanation: explanation::explain(
                self.stated,
                o.answer,
                o.reader,
                self.origins,
                cells,
                lines,
            ),
        }
    }

    // To explain a refusal of a text: what the caller states of it, and the choices with which it is read.
    #[tactic(auto, unfolding(crate::specs::Model::open_for))]
    pub fn open(
        kind: u8,
        component: u8,
        coverage: u8,
        stated: Stated,
        cells: &mut [i32],
        flags: &mut [u8],
        lines: &mut [u32],
    ) -> Step
        ensures { stepped_of result cells.new flags.new lines.new ≡ open_for (record { kind = kind; component = component; coverage = coverage }) stated cells.old flags.old lines.old }
    {
        if lines.len() < memory::LINES {
            let none = Record::new();
            return Step {
                explainer: Explainer::fresh_with(none, stated),
                answer: reader::reader::refuse(none, 1),
            };
        }
        let o = Record::open(kind, component, coverage, cells, flags);
        let explainer = Explainer::fresh_with(o.reader, stated);
        if o.reader.marks.stage == 1 {
            // No line has set any cell.
            lines[..memory::LINES].fill(0);
        }
        Step {
            explainer,
            answer: o.answer,
        }
    }

    // A piece of the text, of any length, cut anywhere.
    #[tactic(auto, unfolding(crate::specs::Model::piece_for, crate::specs::Model::barred_at))]
    pub fn piece(self, text: &[u8], cells: &mut [i32], flags: &mut [u8], lines: &mut [u32]) -> Step
        ensures { stepped_of result cells.new flags.new lines.new ≡ piece_for text.now (reading_of self cells.old flags.old lines.old) }
    {
        let number = reader::reader::barred(self.reader, cells.len(), flags.len().min(lines.len()));
        if number != 0 {
            return Step {
                explainer: self,
                answer: reader::reader::refuse(self.reader, number),
            };
        }
        let explainer = self.read(text, cells, flags, lines);
        Step {
            explainer,
            answer: answer_of(explainer.reader),
        }
    }

    // The end of the text, and what explains the refusal.
    #[tactic(auto, unfolding(crate::specs::Model::close_for))]
    pub fn close(self, cells: &mut [i32], flags: &mut [u8], lines: &mut [u32]) -> Told
        ensures { explained_of result cells.new flags.new lines.new ≡ close_for (reading_of self cells.old flags.old lines.old) }
    {
        if let Err(refusal) = self.close_barred(cells, flags, lines) {
            let number = refusal.number();
            return Told {
                explainer: self,
                given: reader::reader::refuse(self.reader, number),
                explanation: Explanation::Refused(number),
            };
        }
        self.ended(cells, flags, lines).closed(cells, flags, lines)
    }
}
