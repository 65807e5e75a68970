// A used row put into the table, or refused 8 or 9.
ghost use Rattle.std.specs.Prelude.{◌≡◌, true, false, cond, not, ◌&&◌, ◌<◌, ◌^◌, ltb, MatchOption, IfSome};
ghost use Rattle.grid.specs.Slots.{tick_slot, with_tick, heading_slot, with_heading, held_with};
ghost use Rattle.table.specs.Cells.{flags_lent, node_at, place_of, cell_at, is_set, same_value};
ghost use Rattle.table.specs.Entries.{complex_of};
ghost use Rattle.table.specs.Placing.{grown, tick₁, tick₂, heading₁, heading₂, placed, table_of, placed_by};

use crate::cells;
use crate::entries::Parts;
use grid::nodes::Slots;
use grid::slots;
use refusals::refusal::Refusal;
use row::reading::Entry;

// The slots of a node: its frequency's and its heading's.
#[derive(Clone, Copy)]
struct Seat {
    tick: usize,
    heading: usize,
}

impl Seat {
    // The node's number, where there was a slot for each.
    #[tactic(auto, unfolding(crate::specs::Cells::node_at))]
    fn node(self) -> Option<usize>
        ensures number { result ≡ cond (ltb self.heading 4 && ltb self.tick 20) (Some (node_at self.heading self.tick)) None }
        ensures small { IfSome result (λ n. n < 80) }
    {
        if self.heading < 4 && self.tick < 20 {
            Some(cells::node_at(self.heading, self.tick))
        } else {
            None
        }
    }
}

// The seats of a row's two nodes, and all slots once it has taken them.
#[derive(Clone, Copy)]
struct Taken {
    slots: Slots,
    first: Seat,
    second: Seat,
}

impl Taken {
    // The places of the row's cell and of the mirror's, where there was a slot for each.
    #[tactic(auto, unfolding(crate::specs::Cells::place_of))]
    fn places(self) -> Option<(usize, usize)>
        ensures room { let room = ltb self.first.tick 20 && (ltb self.second.tick 20 && (ltb self.first.heading 4 && ltb self.second.heading 4)) in MatchOption result (room ≡ false) (λ p. room ≡ true) }
        ensures places { let first = node_at self.first.heading self.first.tick in let second = node_at self.second.heading self.second.tick in IfSome result (λ p. (p.0 ≡ place_of first second) × (p.1 ≡ place_of second first)) }
        ensures small { IfSome result (λ p. (p.0 < flags_lent) × (p.1 < flags_lent)) }
    {
        let first = self.first.node()?;
        let second = self.second.node()?;
        Some((
            cells::place_of(first, second),
            cells::place_of(second, first),
        ))
    }
}

// The slot of a frequency, which it takes where it is new.
#[tactic(auto, unfolding(grid::specs::Slots::with_tick))]
fn take_tick(s: &mut Slots, t: u32) -> usize
    ensures slot { result ≡ tick_slot s.old.ticks t }
    ensures slots { s.new ≡ record s.old { ticks = with_tick s.old.ticks t } }
{
    let at = slots::tick_slot(&s.ticks, t);
    slots::put(&mut s.ticks, at, t);
    at
}

// The slot of a heading, which it takes where it is new: then one more is held.
#[tactic(auto, unfolding(grid::specs::Slots::with_heading, grid::specs::Slots::held_with))]
fn take_heading(s: &mut Slots, h: i32) -> usize
    ensures slot { result ≡ heading_slot s.old.headings s.old.held h }
    ensures slots { s.new ≡ record s.old { headings = with_heading s.old.headings s.old.held h; held = held_with s.old.headings s.old.held h } }
{
    let at = slots::heading_slot(&s.headings, s.held, h);
    slots::put(&mut s.headings, at, h);
    if at == s.held {
        s.held += 1;
    }
    at
}

// PER1 before PER2, BETA1 before BETA2.
fn take(mut s: Slots, e: Entry) -> Taken
    ensures slots { result.slots ≡ grown s e }
    ensures ticks { (result.first.tick ≡ tick₁ s e) × (result.second.tick ≡ tick₂ s e) }
    ensures headings { (result.first.heading ≡ heading₁ s e) × (result.second.heading ≡ heading₂ s e) }
{
    let tick1 = take_tick(&mut s, e.tick1);
    let tick2 = take_tick(&mut s, e.tick2);
    let heading1 = take_heading(&mut s, e.heading1);
    let heading2 = take_heading(&mut s, e.heading2);
    Taken {
        slots: s,
        first: Seat {
            tick: tick1,
            heading: heading1,
        },
        second: Seat {
            tick: tick2,
            heading: heading2,
        },
    }
}

// Whether a place is already set to another value.
fn clash(cells: &[i32], flags: &[u8], p: usize, v: Parts) -> bool
    requires { p < 2 ^ 63 }
    ensures { result ≡ (is_set flags.now p && not (same_value (cell_at cells.now p) (complex_of v))) }
{
    cells::is_set(flags, p) && cells::cell_at(cells, p) != v
}

// The slots after a row. One that is refused leaves slots, cells and flags as they were.
pub fn place(
    kind: u8,
    s: Slots,
    e: Entry,
    cells: &mut [i32],
    flags: &mut [u8],
) -> Result<Slots, Refusal>
    ensures { placed_by s result cells.new flags.new ≡ placed kind e (table_of s cells.old flags.old) }
{
    let t = take(s, e);
    let Some((here, there)) = t.places() else {
        return Err(Refusal::NoSlot);
    };
    let value = Parts { re: e.re, im: e.im };
    let mirror = cells::mirrored(kind, value);
    if clash(cells, flags, here, value) || clash(cells, flags, there, mirror) {
        return Err(Refusal::Contradicted);
    }
    cells::write_cell(cells, here, value);
    cells::write_cell(cells, there, mirror);
    cells::raise_flag(flags, here);
    cells::raise_flag(flags, there);
    Ok(t.slots)
}
