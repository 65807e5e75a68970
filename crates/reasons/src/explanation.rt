// What explains a refusal.
ghost use Rattle.std.specs.Prelude.{◌≡◌, List, ℕ, get_or};
ghost use Rattle.whole.specs.Same.{same_ℤ, same_list};
ghost use Rattle.faults.specs.Offending.{offending_field};
ghost use Rattle.reader.specs.Model.{state_of};
ghost use Rattle.origins.specs.Memory.{memory_of, tick_in, heading_in};
ghost use Rattle.row.specs.Told.{told};
ghost use Rattle.reasons.specs.Told.{numbered};
ghost use Rattle.reasons.specs.Reasons.{line_kept, row_kept, values_of, same_place, is_stated, clash_of, bringers_of, reason_of, explanation_of};

use faults::offending;
use grid::nodes::{Pair, Slots};
use grid::slots;
use origins::memory;
use origins::memory::Origins;
use reader::reader::{Answer, Place};
use reader::record::Record;
use refusals::refusal::Refusal;
use row::reading;
use row::reading::Row;
use table::entries;
use table::entries::Parts;

// A refusal as a caller states it: its number, which may be any (`explanation_of` answers for every one), and its place.
#[derive(Clone, Copy)]
pub struct Stated {
    pub number: u8,
    pub place: Place,
}

// The line that first set a cell, directly or as its mirror, the value that is held there, and the value that the refused row says of it; both as the refused row
// has its two nodes.
#[derive(Clone, Copy)]
pub struct Clash {
    pub line: u32,
    pub held: Parts,
    pub said: Parts,
}

// The lines that first brought the two frequencies and the two headings of a pair.
#[derive(Clone, Copy)]
pub struct Bringers {
    pub tick1: u32,
    pub heading1: u32,
    pub tick2: u32,
    pub heading2: u32,
}

// By the number that is explained: the first field that offends (5, 6), counted from 1; the lines of all slots held (8), which are the origins of the explainer that comes
// back with it; what stands against what (9); who brought the missing pair (11); nothing more for the others. Or a refusal, 1 or 2, of what was asked: by its number, since what
// writes an explanation takes any.
#[derive(Clone, Copy)]
pub enum Explanation {
    Nothing,
    Field(u8),
    Held,
    Set(Clash),
    Brought(Bringers),
    Refused(u8),
}

// The bytes that a record keeps of its line. At most 160 are kept, whatever its count says.
fn line_kept(r: &Record) -> &[u8]
    ensures { result.now ≡ line_kept r.now }
{
    &r.kept[..r.marks.count.min(160)]
}

// The row of the line that a record keeps.
#[tactic(auto, unfolding(crate::specs::Reasons::row_kept))]
pub fn row_kept(r: Record) -> Result<Row, Refusal>
    ensures { told result ≡ row_kept r }
{
    reading::read(line_kept(&r), r.choices, r.marks.lines == 1)
}

impl Stated {
    // Whether an answer is the refusal that was stated.
    fn is_given(self, given: Answer) -> bool
        ensures { result ≡ is_stated self given }
    {
        Answer::Refused(self.number, self.place) == given
    }
}

// What a slice of line numbers has at a place; 0 past its end.
fn line_at(lines: &[u32], at: usize) -> u32
    ensures { result ≡ get_or lines.now at 0 }
{
    lines.get(at).copied().unwrap_or(0)
}

// 9: of a row that the table did not take, what it says against what the table holds of its two nodes.
#[tactic(auto, unfolding(crate::specs::Reasons::clash_of))]
fn clash_of(row: Result<Row, Refusal>, r: Record, cells: &[i32], lines: &[u32]) -> Explanation
    ensures { (flags : List ℕ) (o : Origins) → numbered result ≡ clash_of (told row) (state_of r cells.now flags) (memory_of o lines.now) }
{
    let Ok(Row::Used(e)) = row else {
        return Explanation::Nothing;
    };
    let pair = memory::pair_of(e);
    let line = line_at(lines, memory::pair_in(r.slots, pair));
    let held = entries::entry_at(r.slots, cells, pair);
    let said = Parts { re: e.re, im: e.im };
    Explanation::Set(Clash { line, held, said })
}

// 11: who brought the frequencies and the headings of a pair.
fn bringers_of(s: Slots, p: Pair, o: Origins) -> Bringers
    ensures { result ≡ bringers_of s p o }
{
    let tick_line = |t| line_at(&o.ticks, slots::place(&s.ticks, t));
    let heading_line = |h| line_at(&o.headings, slots::heading_slot(&s.headings, s.held, h));
    Bringers {
        tick1: tick_line(p.first.tick),
        heading1: heading_line(p.first.heading),
        tick2: tick_line(p.second.tick),
        heading2: heading_line(p.second.heading),
    }
}

// What there is to say of a refusal, by its number. A reader that is stuck with a line keeps it.
#[tactic(auto, unfolding(crate::specs::Reasons::reason_of))]
fn reason(number: u8, r: Record, o: Origins, cells: &[i32], lines: &[u32]) -> Explanation
    ensures { (flags : List ℕ) → numbered result ≡ reason_of number (state_of r cells.now flags) (memory_of o lines.now) }
{
    match number {
        5 | 6 => Explanation::Field(offending::field(line_kept(&r), number)),
        8 => Explanation::Held,
        9 => clash_of(row_kept(r), r, cells, lines),
        11 => Explanation::Brought(bringers_of(r.slots, r.pair, o)),
        _ => Explanation::Nothing,
    }
}

// 2 where the text does not give what is stated.
#[tactic(auto, unfolding(crate::specs::Reasons::explanation_of))]
pub fn explain(
    w: Stated,
    given: Answer,
    r: Record,
    o: Origins,
    cells: &[i32],
    lines: &[u32],
) -> Explanation
    ensures { (flags : List ℕ) → numbered result ≡ explanation_of w given (state_of r cells.now flags) (memory_of o lines.now) }
{
    if w.is_given(given) {
        reason(w.number, r, o, cells, lines)
    } else {
        Explanation::Refused(Refusal::NotValid.number())
    }
}
