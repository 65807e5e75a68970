// Cells and flags, by the places of two nodes. What lies past the end of a slice reads as 0, and is not written.
ghost use Rattle.std.specs.Prelude.{◌≡◌, ◌≤◌, ◌<◌, ◌^◌, length};
ghost use Rattle.table.specs.Cells.{node_at, place_of, cell_at, is_set, with_cell, with_flag, mirror};
ghost use Rattle.table.specs.Entries.{parts_of, complex_of};

use crate::entries::Parts;
use grid::slots;

// What the caller lends: so many numbers for cells, and so many bytes for flags.
pub const CELLS: usize = 12_800;

pub const FLAGS: usize = 6_400;

#[tactic(auto, unfolding(crate::specs::Cells::node_at))]
pub(crate) fn node_at(heading: usize, tick: usize) -> usize
    requires { (heading ≤ 4) × (tick ≤ 20) }
    ensures { result ≡ node_at heading tick }
{
    20 * heading + tick
}

#[tactic(auto, unfolding(crate::specs::Cells::place_of))]
pub(crate) fn place_of(r: usize, c: usize) -> usize
    requires { (r ≤ 100) × (c ≤ 100) }
    ensures { result ≡ place_of r c }
{
    80 * r + c
}

#[tactic(auto, unfolding(crate::specs::Cells::is_set))]
pub(crate) fn is_set(flags: &[u8], p: usize) -> bool
    ensures { result ≡ is_set flags.now p }
{
    flags.get(p).copied().unwrap_or(0) != 0
}

#[tactic(auto, unfolding(crate::specs::Cells::cell_at))]
pub(crate) fn cell_at(cells: &[i32], p: usize) -> Parts
    requires { p < 2 ^ 63 }
    ensures { result ≡ parts_of (cell_at cells.now p) }
{
    Parts {
        re: cells.get(2 * p).copied().unwrap_or(0),
        im: cells.get(2 * p + 1).copied().unwrap_or(0),
    }
}

#[tactic(auto, unfolding(crate::specs::Cells::with_cell))]
pub(crate) fn write_cell(cells: &mut [i32], p: usize, v: Parts)
    requires { p < 2 ^ 63 }
    ensures { cells.new ≡ with_cell cells.old p (complex_of v) }
{
    slots::put(cells, 2 * p, v.re);
    slots::put(cells, 2 * p + 1, v.im);
}

#[tactic(auto, unfolding(crate::specs::Cells::with_flag))]
pub(crate) fn raise_flag(flags: &mut [u8], p: usize)
    ensures { flags.new ≡ with_flag flags.old p }
{
    slots::put(flags, p, 1);
}

// The mirror: the conjugate in a difference table, where the least word has no opposite and stays; the same in a sum table.
#[tactic(auto, unfolding(crate::specs::Cells::mirror))]
pub(crate) fn mirrored(kind: u8, v: Parts) -> Parts
    ensures { complex_of result ≡ mirror kind (complex_of v) }
{
    if kind == 0 {
        return Parts {
            im: v.im.wrapping_neg(),
            ..v
        };
    }
    v
}
