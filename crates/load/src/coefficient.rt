// A coefficient between frequencies.
ghost use Rattle.std.specs.Prelude.{◌≡◌, cond, ◌≤◌, length};
ghost use Rattle.table.specs.Cells.{cells_lent};
ghost use Rattle.load.specs.Corners.{any_bad};
ghost use Rattle.load.specs.own.Brackets.{bracket_corners, bracket_coefficient, ProperBracket, InTable};
ghost use Rattle.load.specs.Answers.{Coefficient, coefficient_in};
ghost use Rattle.load.specs.Coefficient.{coefficient_of};

use crate::locating::Bracket;
use crate::refused::{CELL_OUTSIDE, Refused};
use crate::{corners, locating};
use grid::nodes::Node;
use reader::record::Record;
use reader::validity;
use table::entries::Parts;

// Of two points in their places: 15, or both parts.
fn valued(cells: &[i32], p: Bracket, q: Bracket) -> Result<Parts, Refused>
    requires lent { cells_lent ≤ length cells.now }
    requires first { ProperBracket p × InTable p }
    requires second { ProperBracket q × InTable q }
    ensures { coefficient_in result ≡ cond (any_bad (bracket_corners cells.now p q)) (Coefficient.Refused 15 0) (Coefficient.Value (bracket_coefficient cells.now p q).re (bracket_coefficient cells.now p q).im) }
{
    corners::worked(cells, p, q).ok_or(CELL_OUTSIDE)
}

// 1, 2, then 13 and 14 for the first point as line 1 and for the second as line 2, then 15.
pub fn between(r: Record, cells: &[i32], a: Node, b: Node) -> Result<Parts, Refused>
    ensures { coefficient_in result ≡ coefficient_of r cells.now a b }
{
    validity::query_barred(r, cells.len())?;
    let p = locating::locate(r, a.heading, a.tick, a.heading, 1)?;
    let q = locating::locate(r, a.heading, b.tick, b.heading, 2)?;
    valued(cells, p, q)
}
