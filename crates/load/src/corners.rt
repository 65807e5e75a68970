// The four corners between which a coefficient lies, and what is worked from them.
ghost use Rattle.std.specs.Prelude.{◌≡◌, false, ◌≤◌, ◌<◌, nat_abs, length};
ghost use Rattle.table.specs.Cells.{cells_lent};
ghost use Rattle.table.specs.Entries.{entry_of, parts_of, complex_of};
ghost use Rattle.load.specs.Corners.{any_bad};
ghost use Rattle.load.specs.own.Brackets.{bracket_corners, bracket_coefficient, ProperBracket, InTable};
ghost use Rattle.load.specs.own.Square.{square_of, any_out, along_of, part_of, interpolated_of, CornersInBounds};
ghost use Rattle.load.specs.own.Pairs.{CoefficientWorked};

use crate::locating::Bracket;
use table::entries;
use table::entries::Parts;
use whole::rounding;

// The entry of two nodes.
fn corner(cells: &[i32], row: u32, column: u32) -> Parts
    requires lent { cells_lent ≤ length cells.now }
    requires row { row < 80 }
    requires column { column < 80 }
    ensures { result ≡ parts_of (entry_of cells.now row column) }
{
    let at = 2 * (80 * (row as usize) + column as usize);
    Parts {
        re: cells[at],
        im: cells[at + 1],
    }
}

// Two by two: the nodes of the one with the nodes of the other. All four are read, whatever their weights: one that has none is the same cell as one that has.
fn square(cells: &[i32], p: Bracket, q: Bracket) -> [[Parts; 2]; 2]
    requires lent { cells_lent ≤ length cells.now }
    requires first { InTable p }
    requires second { InTable q }
    ensures { result ≡ square_of cells.now p q }
{
    let a = corner(cells, p.low, q.low);
    let b = corner(cells, p.low, q.high);
    let c = corner(cells, p.high, q.low);
    let d = corner(cells, p.high, q.high);
    [[a, b], [c, d]]
}

// 15: whether one of four corners is out of bounds.
fn any_out(s: [[Parts; 2]; 2]) -> bool
    ensures { result ≡ any_out s }
{
    entries::is_out(s[0][0])
        || entries::is_out(s[0][1])
        || entries::is_out(s[1][0])
        || entries::is_out(s[1][1])
}

// Two values by the weights of a bracket.
fn along(p: Bracket, low: i64, high: i64) -> i64
    requires bracket { ProperBracket p }
    requires low { nat_abs low ≤ 9_900_000_000_000 }
    requires high { nat_abs high ≤ 9_900_000_000_000 }
    ensures { result ≡ along_of p low high }
{
    i64::from(p.to_low) * low + i64::from(p.to_high) * high
}

// One part of a coefficient: the four corners by their weights, over the product of the widths, rounded once. An even number is added to the quotient, so that it is
// rounded with no sign, and taken off again.
fn part(p: Bracket, q: Bracket, a: i32, b: i32, c: i32, d: i32) -> i32
    requires first { ProperBracket p }
    requires second { ProperBracket q }
    requires bounds { CornersInBounds a b c d }
    ensures value { result ≡ part_of p q a b c d }
    ensures small { nat_abs result ≤ 1_000_000_000 }
{
    let top = along(
        p,
        along(q, i64::from(a), i64::from(b)),
        along(q, i64::from(c), i64::from(d)),
    );
    let over = u64::from(p.width) * u64::from(q.width);
    let raised = (top + 1_000_000_000 * (over as i64)) as u64;
    (rounding::nearest(raised, over) as i64 - 1_000_000_000) as i32
}

// Both parts of the coefficient of two brackets, from their corners.
fn interpolate(p: Bracket, q: Bracket, s: [[Parts; 2]; 2]) -> Parts
    requires first { ProperBracket p }
    requires second { ProperBracket q }
    requires bounds { any_out s ≡ false }
    ensures value { complex_of result ≡ interpolated_of p q s }
    ensures small { (nat_abs result.re ≤ 1_000_000_000) × (nat_abs result.im ≤ 1_000_000_000) }
{
    let [[a, b], [c, d]] = s;
    Parts {
        re: part(p, q, a.re, b.re, c.re, d.re),
        im: part(p, q, a.im, b.im, c.im, d.im),
    }
}

// The coefficient of two brackets, or none where one of their four corners is out of bounds. It is inlined wherever it is called: the brackets are copied for a call.
#[inline(always)]
pub(crate) fn worked(cells: &[i32], p: Bracket, q: Bracket) -> Option<Parts>
    requires lent { cells_lent ≤ length cells.now }
    requires first { ProperBracket p × InTable p }
    requires second { ProperBracket q × InTable q }
    ensures { CoefficientWorked (any_bad (bracket_corners cells.now p q)) (bracket_coefficient cells.now p q) 1_000_000_000 result }
{
    let s = square(cells, p, q);
    if any_out(s) {
        None
    } else {
        Some(interpolate(p, q, s))
    }
}
