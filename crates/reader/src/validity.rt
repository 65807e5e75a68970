// Whether a record is valid, and the number that a query begins with.
ghost use Rattle.std.specs.Prelude.{◌≡◌};
ghost use Rattle.refusals.specs.Numbered.{number_in};
ghost use Rattle.reader.specs.Valid.{valid_choices, sticks, valid_stage, valid_line, valid_of, query_barred};

use crate::record::Record;
use grid::validity;
use refusals::refusal::Refusal;
use row::reading::Choices;
use table::cells;

// Kind 0 or 1, component 1 to 6, coverage 0 or 1.
#[tactic(auto, unfolding(crate::specs::Valid::valid_choices))]
pub fn valid_choices(c: Choices) -> bool
    ensures { result ≡ valid_choices c }
{
    c.kind <= 1 && 1 <= c.component && c.component <= 6 && c.coverage <= 1
}

// The refusals that stick: 3 to 11, and 17.
#[tactic(auto, unfolding(crate::specs::Valid::sticks))]
pub fn sticks(number: u8) -> bool
    ensures { result ≡ sticks number }
{
    matches!(number, 3..=11 | 17)
}

// Never opened, open, accepted, or stuck.
#[tactic(auto, unfolding(crate::specs::Valid::valid_stage))]
fn valid_stage(stage: u8) -> bool
    ensures { result ≡ valid_stage stage }
{
    stage <= 2 || sticks(stage)
}

// No line feed among the bytes kept.
#[tactic(auto, unfolding(crate::specs::Valid::valid_line))]
fn valid_line(kept: &[u8; 160], count: usize) -> bool
    ensures { result ≡ valid_line kept.now count }
{
    count <= 160 && !kept[..count].contains(&b'\n')
}

#[tactic(auto, unfolding(crate::specs::Valid::valid_of))]
pub fn valid(r: Record) -> bool
    ensures { result ≡ valid_of r }
{
    valid_stage(r.marks.stage)
        && r.marks.lines <= 1_000_000
        && valid_choices(r.choices)
        && validity::valid_slots(r.marks.stage, r.slots)
        && valid_line(&r.kept, r.marks.count)
}

// 1 or 2, where they bar a query of a record with so many cells lent.
#[tactic(auto, unfolding(crate::specs::Valid::query_barred))]
pub fn query_barred(r: Record, cells: usize) -> Result<(), Refusal>
    ensures { number_in result ≡ query_barred r cells }
{
    if cells < cells::CELLS {
        Err(Refusal::ShortBuffer)
    } else if valid(r) && r.marks.stage == 2 {
        Ok(())
    } else {
        Err(Refusal::NotValid)
    }
}
