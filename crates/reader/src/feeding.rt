// The bytes of a text, and the line that a line feed or closing ends.
ghost use Rattle.std.specs.Prelude.{◌≡◌, ◌≤◌, List, ℕ, ℤ, length, IfErr};
ghost use Rattle.refusals.specs.Numbered.{number_of};
ghost use Rattle.table.specs.Placing.{placed_by};
ghost use Rattle.reader.specs.Model.{state_of, refused_at, counting, kept_byte, settled, line_ended, line_feed, open_byte, bytes_of};

use crate::record::{Marks, Record};
use grid::nodes::Slots;
use refusals::refusal::Refusal;
use row::reading;
use row::reading::Row;
use table::placing;

// Bytes, into as many places. Not std's copy: it is the C library's `memmove`, which an archive for C would then ask for.
fn lay(places: &mut [u8], bytes: &[u8])
    requires { length places.old ≡ length bytes.now }
    ensures { places.new ≡ bytes.now }
{
    for (i, b) in bytes.iter().enumerate() {
        places[i] = *b;
    }
}

impl Record {
    // The refusal sticks, with its line; the rest stays as it stood.
    fn stick(&mut self, refusal: Refusal, line: u32)
        ensures { self.new ≡ record self.old { marks = refused_at (number_of refusal) line self.old.marks } }
    {
        self.marks = Marks {
            stage: refusal.number(),
            line,
            ..self.marks
        };
    }

    // A byte that is no line feed: it begins a line where none is begun, and is kept; the first past a million lines and the 161st of a line are refused.
    fn keep(&mut self, b: u8)
        requires { (self.old.marks.lines ≤ 1_000_000) × (self.old.marks.count ≤ 160) }
        ensures { (cells : List ℤ) (flags : List ℕ) → state_of self.new cells flags ≡ kept_byte b (state_of self.old cells flags) }
    {
        let count = self.marks.count;
        if count == 0 {
            if self.marks.lines == 1_000_000 {
                return self.stick(Refusal::LongText, 1_000_001);
            }
            self.marks.lines += 1;
        } else if count == 160 {
            return self.stick(Refusal::LongText, self.marks.lines);
        }
        self.kept[count] = b;
        self.marks.count = count + 1;
    }

    // The bytes of a line that has begun, kept at once up to a line feed, the end of the text, or the line's 160th byte; and the text that is left, which then comes
    // to the same. Nearly every byte passes here, and asks nothing but whether it is a line feed.
    fn keep_on<'a>(&mut self, text: &'a [u8]) -> &'a [u8]
        requires { (self.old.marks.count ≤ 160) × (self.old.marks.stage ≡ 1) }
        ensures same { (cells : List ℤ) (flags : List ℕ) → bytes_of result.now (state_of self.new cells flags) ≡ bytes_of text.now (state_of self.old cells flags) }
        ensures marks { self.new.marks ≡ counting self.new.marks.count self.old.marks }
        ensures few { self.new.marks.count ≤ 160 }
        ensures kept { length self.new.kept ≡ length self.old.kept }
        ensures left { length result.now ≤ length text.now }
    {
        let count = self.marks.count;
        if count == 0 {
            return text;
        }
        let most = text.len().min(160 - count);
        let n = text[..most]
            .iter()
            .position(|b| *b == b'\n')
            .unwrap_or(most);
        lay(&mut self.kept[count..count + n], &text[..n]);
        self.marks.count = count + n;
        &text[n..]
    }

    // What the row of a line that has begun makes of the slots, the cells and the flags; a row that is refused leaves them as they were.
    #[tactic(auto, unfolding(crate::specs::Model::line_ended, crate::specs::Model::ended))]
    fn take_row(&self, cells: &mut [i32], flags: &mut [u8]) -> Result<Slots, Refusal>
        requires { self.now.marks.count ≤ 160 }
        ensures row { let state = state_of self.now cells.old flags.old in settled (placed_by self.now.slots result cells.new flags.new) state ≡ line_ended state }
        ensures refused { IfErr result (λ _. (cells.new ≡ cells.old) × (flags.new ≡ flags.old)) }
    {
        let line = &self.kept[..self.marks.count];
        match reading::read(line, self.choices, self.marks.lines == 1)? {
            Row::Used(e) => placing::place(self.choices.kind, self.slots, e, cells, flags),
            _ => Ok(self.slots),
        }
    }

    // The end of a line that has begun: what its row makes of the table.
    pub(crate) fn end_line(&mut self, cells: &mut [i32], flags: &mut [u8])
        requires { self.old.marks.count ≤ 160 }
        ensures { state_of self.new cells.new flags.new ≡ line_ended (state_of self.old cells.old flags.old) }
    {
        match self.take_row(cells, flags) {
            Ok(slots) => {
                self.slots = slots;
                self.marks.count = 0;
            }
            Err(refusal) => self.stick(refusal, self.marks.lines),
        }
    }

    // A line feed: an empty line is begun by its own.
    fn line_feed(&mut self, cells: &mut [i32], flags: &mut [u8])
        requires { (self.old.marks.lines ≤ 1_000_000) × (self.old.marks.count ≤ 160) }
        ensures { state_of self.new cells.new flags.new ≡ line_feed (state_of self.old cells.old flags.old) }
    {
        if self.marks.count == 0 {
            if self.marks.lines == 1_000_000 {
                return self.stick(Refusal::LongText, 1_000_001);
            }
            self.marks.lines += 1;
        }
        self.end_line(cells, flags);
    }

    // A byte of a table that is open.
    #[tactic(auto, unfolding(crate::specs::Model::open_byte))]
    fn take_in(&mut self, b: u8, cells: &mut [i32], flags: &mut [u8])
        requires { (self.old.marks.lines ≤ 1_000_000) × (self.old.marks.count ≤ 160) }
        ensures { state_of self.new cells.new flags.new ≡ open_byte b (state_of self.old cells.old flags.old) }
    {
        if b == b'\n' {
            self.line_feed(cells, flags);
        } else {
            self.keep(b);
        }
    }

    // The bytes of a text, one after the other, until one of them is refused.
    pub(crate) fn feed(&mut self, text: &[u8], cells: &mut [i32], flags: &mut [u8])
        requires { (self.old.marks.lines ≤ 1_000_000) × (self.old.marks.count ≤ 160) × (self.old.marks.stage ≡ 1) }
        ensures { state_of self.new cells.new flags.new ≡ bytes_of text.now (state_of self.old cells.old flags.old) }
    {
        let mut left = text;
        while let [first, behind @ ..] = left {
            self.take_in(*first, cells, flags);
            if self.marks.stage != 1 {
                return;
            }
            left = self.keep_on(behind);
        }
    }
}
