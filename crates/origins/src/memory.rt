// What is remembered while a text is read: which line first brought each slot, and which first set each cell.
ghost use Rattle.std.specs.Prelude.{◌≡◌};
ghost use Rattle.row.specs.Told.{told};
ghost use Rattle.origins.specs.Memory.{no_origins, noted, pair_in, pair_of, turned, remembered, recalled, memory_of};

use grid::nodes::{Node, Pair, Slots};
use grid::slots;
use reader::record::Record;
use refusals::refusal::Refusal;
use row::reading::{Entry, Row};
use table::closing;

// What the caller lends beside cells and flags: so many line numbers, one for each flag.
pub const LINES: usize = 6_400;

// The line that first brought the frequency or heading in each slot; 0 for a slot that is not held, as in the lines that are lent (`noted` writes both).
#[derive(Clone, Copy)]
pub struct Origins {
    pub ticks: [u32; 20],
    pub headings: [u32; 4],
}

// The first line stays: one is put down only where none stands.
#[tactic(auto, unfolding(crate::specs::Memory::noted))]
fn note(lines: &mut [u32], at: usize, line: u32)
    ensures { lines.new ≡ noted line at lines.old }
{
    // By its index: of a slice's `get_mut` the kit knows no element after the write.
    if at < lines.len() && lines[at] == 0 {
        lines[at] = line;
    }
}

// A row names two of everything: frequencies, headings, and cells, its own and its mirror's.
fn note_both(lines: &mut [u32], first: usize, second: usize, line: u32)
    ensures { lines.new ≡ noted line second (noted line first lines.old) }
{
    note(lines, first, line);
    note(lines, second, line);
}

// The place of a pair's flag, and of its line.
pub fn pair_in(s: Slots, p: Pair) -> usize
    ensures { result ≡ pair_in s p }
{
    80 * closing::node_of(s, p.first) + closing::node_of(s, p.second)
}

// The two nodes of a row, as it has them. A `From` would have to stand in grid, whose Pair it is.
pub fn pair_of(e: Entry) -> Pair
    ensures { result ≡ pair_of e }
{
    Pair {
        first: Node {
            tick: e.tick1,
            heading: e.heading1,
        },
        second: Node {
            tick: e.tick2,
            heading: e.heading2,
        },
    }
}

// The two nodes the other way about: the mirror's.
fn turned(p: Pair) -> Pair
    ensures { result ≡ turned p }
{
    Pair {
        first: p.second,
        second: p.first,
    }
}

impl Origins {
    // Before any row.
    pub fn none_yet() -> Self
        ensures { result ≡ no_origins }
    {
        Origins {
            ticks: [0; 20],
            headings: [0; 4],
        }
    }

    // A row that the table has taken: the slots hold it.
    #[tactic(auto, unfolding(crate::specs::Memory::remembered))]
    fn remember(mut self, s: Slots, e: Entry, line: u32, lines: &mut [u32]) -> Self
        ensures { memory_of result lines.new ≡ remembered s e line (memory_of self lines.old) }
    {
        let pair = pair_of(e);
        note_both(lines, pair_in(s, pair), pair_in(s, turned(pair)), line);
        note_both(
            &mut self.ticks,
            slots::place(&s.ticks, e.tick1),
            slots::place(&s.ticks, e.tick2),
            line,
        );
        note_both(
            &mut self.headings,
            slots::heading_slot(&s.headings, s.held, e.heading1),
            slots::heading_slot(&s.headings, s.held, e.heading2),
            line,
        );
        self
    }

    // The end of a line, which left the reader as it now is. A used row that did not stop it is in the table.
    #[tactic(auto, unfolding(crate::specs::Memory::recalled))]
    pub fn recall(self, row: Result<Row, Refusal>, r: Record, lines: &mut [u32]) -> Self
        ensures { memory_of result lines.new ≡ recalled (told row) r (memory_of self lines.old) }
    {
        match row {
            Ok(Row::Used(e)) if r.marks.stage == 1 => {
                self.remember(r.slots, e, r.marks.lines, lines)
            }
            _ => self,
        }
    }
}
