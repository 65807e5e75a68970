// The entry of two nodes, and whether it is in bounds.
ghost use Rattle.std.specs.Prelude.{◌≡◌};
ghost use Rattle.table.specs.Entries.{entry_of, entry_at, parts_of, complex_of, in_bounds, is_out};

use crate::{cells, closing};
use grid::nodes::{Pair, Slots};
use row::ranges;

// The real and the imaginary part of an entry, a coefficient or an amplitude.
#[derive(Clone, Copy, Debug, PartialEq, Eq)]
pub struct Parts {
    pub re: i32,
    pub im: i32,
}

// Of two nodes by their numbers; (0, 0) for one that lies past the cells.
pub fn entry(cells: &[i32], row: usize, column: usize) -> Parts
    ensures { result ≡ parts_of (entry_of cells.now row column) }
{
    let last = cells.len() / 2;
    if last / 80 < row || last - 80 * row < column {
        return Parts { re: 0, im: 0 };
    }
    cells::cell_at(cells, 80 * row + column)
}

// Of a pair, by its nodes.
#[tactic(auto, unfolding(crate::specs::Entries::entry_at))]
pub fn entry_at(s: Slots, cells: &[i32], p: Pair) -> Parts
    ensures { result ≡ parts_of (entry_at s cells.now p.first p.second) }
{
    entry(
        cells,
        closing::node_of(s, p.first),
        closing::node_of(s, p.second),
    )
}

// Whether a part is from -10^9 to 10^9.
#[tactic(auto, unfolding(crate::specs::Entries::in_bounds))]
fn in_bounds(z: i32) -> bool
    ensures { result ≡ in_bounds z }
{
    ranges::PART_LEAST <= z && z <= ranges::PART_MOST
}

// 15: whether a part is out of bounds.
pub fn is_out(p: Parts) -> bool
    ensures { result ≡ is_out (complex_of p) }
{
    !(in_bounds(p.re) && in_bounds(p.im))
}
