// What closing asks: every pair that the coverage needs.
ghost use Rattle.std.specs.Prelude.{◌≡◌, ◌≤◌};
ghost use Rattle.table.specs.Closing.{node_of, both_set, closed_of};

use crate::{cells, pairs};
use grid::nodes::{Node, Pair, Slots};
use grid::slots;

// The counts of frequencies and headings, the first pair that is missing, or that no row was used: three ends, so neither an Option nor a Result.
#[derive(Clone, Copy)]
pub enum Closed {
    Complete(usize, usize),
    Missing(Pair),
    Empty,
}

// The number of a node that the slots hold.
#[tactic(auto, unfolding(crate::specs::Closing::node_of, crate::specs::Cells::node_at))]
pub fn node_of(s: Slots, n: Node) -> usize
    ensures node { result ≡ node_of s n }
    ensures small { result ≤ 100 }
{
    cells::node_at(
        slots::heading_slot(&s.headings, s.held, n.heading),
        slots::place(&s.ticks, n.tick),
    )
}

// Whether both flags of a pair are set.
#[tactic(auto, unfolding(crate::specs::Closing::both_set))]
pub(crate) fn both_set(s: Slots, flags: &[u8], p: Pair) -> bool
    ensures { result ≡ both_set s flags.now p }
{
    let a = node_of(s, p.first);
    let b = node_of(s, p.second);
    cells::is_set(flags, cells::place_of(a, b)) && cells::is_set(flags, cells::place_of(b, a))
}

// 10, 11 or the counts: the pairs in their order, up to the first that is missing.
pub fn close(coverage: u8, s: Slots, flags: &[u8]) -> Closed
    ensures { result ≡ closed_of coverage s flags.now }
{
    let frequencies = slots::ticks_held(&s.ticks);
    if frequencies == 0 {
        return Closed::Empty;
    }
    let o = pairs::in_order(s);
    let (ticks, headings) = (o.ticks(), o.headings());
    for k in 0..pairs::count(coverage, ticks, headings) {
        let p = pairs::pair_at(coverage, ticks, headings, k);
        if !both_set(s, flags, p) {
            return Closed::Missing(p);
        }
    }
    Closed::Complete(frequencies, s.held)
}
