// The six tables of one hull: what is asked of them before anything is written, and what they say of a pair.
ghost use Rattle.std.specs.Prelude.{◌≡◌, length};
ghost use Rattle.std.specs.List.{list_any};
ghost use Rattle.table.specs.Entries.{entry_at, parts_of, complex_of, is_out};

use grid::nodes::Pair;
use reader::record::Record;
use reader::validity;
use refusals::refusal::Refusal;
use table::entries::Parts;
use table::pairs::Order;
use table::{cells, entries, pairs};

// The table of one load component, with the cells that are lent for it. A record is long, so it is lent too.
#[derive(Clone, Copy)]
pub struct Component<'a> {
    pub table: &'a Record,
    pub cells: &'a [i32],
}

// The six, in the order in which they are handed over.
#[derive(Clone, Copy)]
pub struct Six<'a> {
    pub components: [Component<'a>; 6],
    ghost six: { length components ≡ 6 },
}

impl Component<'_> {
    ghost use Rattle.hull.specs.own.Barred.{not_accepted, belongs_by};

    // Whether its record is not valid, or its table not accepted.
    #[tactic(auto, unfolding(crate::specs::own::Barred::not_accepted))]
    fn not_accepted(self) -> bool
        ensures { result ≡ not_accepted self.entry.table.now }
    {
        !validity::valid(*self.table) || self.table.marks.stage != 2
    }

    // Whether it belongs at a place among the six, by the coverage and the order of the first.
    #[tactic(auto, unfolding(crate::specs::own::Barred::belongs_by))]
    fn belongs(self, coverage: u8, order: &Order, place: usize) -> bool
        ensures { result ≡ belongs_by coverage order.now place self.entry.table.now }
    {
        let choices = self.table.choices;
        choices.kind == 0
            && usize::from(choices.component) == place
            && choices.coverage == coverage
            && pairs::in_order(self.table.slots) == *order
    }

    // What it says of a pair.
    fn value_at(self, p: Pair) -> Parts
        ensures { result ≡ parts_of (entry_at self.entry.table.now.slots self.entry.cells.now p.first p.second) }
    {
        entries::entry_at(self.table.slots, self.cells, p)
    }
}

impl Six<'_> {
    ghost use Rattle.std.specs.Prelude.{map};
    ghost use Rattle.refusals.specs.Numbered.{number_in};
    ghost use Rattle.hull.specs.Six.{component_of, components_of, is_short, six_barred, values_at};
    ghost use Rattle.hull.specs.own.Barred.{not_accepted, all_belong_by};

    // 1: whether too few cells are lent for one of them.
    #[tactic(auto, unfolding(crate::specs::Six::is_short))]
    fn any_short(&self) -> bool
        ensures { result ≡ list_any (λ c. is_short (component_of c)) self.now.components }
    {
        self.components.iter().any(|c| c.cells.len() < cells::CELLS)
    }

    // 2: whether one of them is not valid, or not accepted.
    fn any_unaccepted(&self) -> bool
        ensures { result ≡ list_any (λ c. not_accepted c.table.now) self.now.components }
    {
        self.components.iter().any(|c| c.not_accepted())
    }

    // 18, where this fails: whether each belongs at its place, by the coverage and the order of the first. A `for`: of a chain over a `zip` with the places no proof was found.
    fn all_belong(&self, coverage: u8, order: &Order) -> bool
        ensures { result ≡ all_belong_by coverage order.now 1 self.now.components }
    {
        for (i, c) in self.components.iter().enumerate() {
            if !c.belongs(coverage, order, i + 1) {
                return false;
            }
        }
        true
    }

    // 1, 2 or 18, where they bar the six.
    pub fn barred(&self) -> Result<(), Refusal>
        ensures { number_in result ≡ six_barred (components_of self.now) }
    {
        let first = self.components[0].table;
        if self.any_short() {
            Err(Refusal::ShortBuffer)
        } else if self.any_unaccepted() {
            Err(Refusal::NotValid)
        } else if !self.all_belong(first.choices.coverage, &pairs::in_order(first.slots)) {
            Err(Refusal::NotOneHull)
        } else {
            Ok(())
        }
    }

    // What the six say of a pair. The array is taken apart: its `map` promises no equation.
    pub fn gather(&self, p: Pair) -> [Parts; 6]
        ensures { result ≡ map parts_of (values_at (components_of self.now) p) }
    {
        let [surge, sway, heave, roll, pitch, yaw] = self.components;
        [
            surge.value_at(p),
            sway.value_at(p),
            heave.value_at(p),
            roll.value_at(p),
            pitch.value_at(p),
            yaw.value_at(p),
        ]
    }
}

// 15: whether a part of one of them is out of bounds.
pub fn any_out(values: [Parts; 6]) -> bool
    ensures { result ≡ list_any (λ v. is_out (complex_of v)) values }
{
    values.iter().any(|v| entries::is_out(*v))
}
