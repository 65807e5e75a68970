// Where a sea line, or a point of a coefficient call, lies in the table.
ghost use Rattle.std.specs.Prelude.{◌≡◌, true, not, ◌||◌, eqb, IfErr};
ghost use Rattle.whole.specs.Same.{same_ℤ};
ghost use Rattle.reader.specs.Valid.{valid_of};
ghost use Rattle.load.specs.Locating.{located};
ghost use Rattle.load.specs.own.Brackets.{bracketed_in, bracketed, ProperBracket, InTable};

use crate::refused::Refused;
use grid::slots;
use neighbours::standing;
use reader::record::Record;
use refusals::refusal::Refusal;
use row::heading;

// The numbers of the two nodes that a point lies between, with their weights, and the width that the weights are over. All are of one size, so that nothing lies between
// them in memory and an array of them is filled at one stroke.
#[derive(Clone, Copy)]
pub(crate) struct Bracket {
    pub low: u32,
    pub high: u32,
    pub to_low: u32,
    pub to_high: u32,
    pub width: u32,
}

// Whether a heading may stand beside that of line 1. Coverage 0 is single.
fn goes_with(coverage: u8, h: i32, first: i32) -> bool
    ensures { result ≡ (not (eqb coverage 0) || same_ℤ h first) }
{
    coverage != 0 || h == first
}

// 13, then 14, for a line or a point by its number. A valid record holds at most four headings, so one that stands among those held has its slot there.
pub(crate) fn locate(
    r: Record,
    first: i32,
    tick: u32,
    heading: i32,
    line: u32,
) -> Result<Bracket, Refused>
    requires { valid_of r ≡ true }
    ensures place { bracketed_in result ≡ bracketed r.slots (located r first tick heading) }
    ensures line { IfErr result (λ refused. refused.line ≡ line) }
    ensures proper { (p : Bracket) → result ≡ Ok p → ProperBracket p × InTable p }
{
    let n = standing::neighbours_of(r.slots.ticks, tick);
    let (Some(low), Some(high)) = (n.low, n.high) else {
        return Err(Refused {
            refusal: Refusal::FrequencyOutside,
            line,
        });
    };
    let h = heading::heading(heading);
    let at = slots::place(&r.slots.headings, h);
    if r.slots.held <= at || !goes_with(r.choices.coverage, h, heading::heading(first)) {
        return Err(Refused {
            refusal: Refusal::HeadingOutside,
            line,
        });
    }
    let w = standing::weigh(tick, low.tick, high.tick);
    let nodes_before = 20 * (at as u32);
    Ok(Bracket {
        low: nodes_before + low.slot,
        high: nodes_before + high.slot,
        to_low: w.to_low,
        to_high: w.to_high,
        width: w.width,
    })
}
