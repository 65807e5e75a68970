// Whether slots are those of a valid record.
ghost use Rattle.std.specs.Prelude.{◌≡◌, not, ◌&&◌, ◌||◌, ◌+◌, ◌<◌, leb, eqb, pos, neg_ℤ, length, drop, get_or};
ghost use Rattle.std.specs.Int.Signed.{le_z, lt_z};
ghost use Rattle.whole.specs.Same.{same_ℤ};
ghost use Rattle.row.specs.Ranges.{tick_least, tick_most, heading_most};
ghost use Rattle.grid.specs.Slots.{among};
ghost use Rattle.grid.specs.Valid.{valid_ticks, valid_headings, valid_presence, valid_slots};

use crate::nodes::Slots;
use crate::slots;
use row::ranges;

// A slot is free, or holds a tick in range that no later slot holds.
fn valid_tick(ticks: &[u32], i: usize) -> bool
    requires { i < length ticks.now }
    ensures { let t = get_or ticks.now i 0 in result ≡ (eqb t 0 || (leb tick_least t && (leb t tick_most && not (among eqb (drop (i + 1) ticks.now) t)))) }
{
    let t = ticks[i];
    t == 0 || (ranges::TICK_LEAST <= t && t <= ranges::TICK_MOST && !ticks[i + 1..].contains(&t))
}

fn valid_ticks(ticks: &[u32]) -> bool
    ensures { result ≡ valid_ticks ticks.now }
{
    (0..ticks.len()).all(|i| valid_tick(ticks, i))
}

// A heading as it is read: in range and not -180,000, which is read as 180,000.
fn in_range(h: i32) -> bool
    ensures { result ≡ (lt_z (neg_ℤ (pos heading_most)) h && le_z h (pos heading_most)) }
{
    ranges::HEADING_LEAST < h && h <= ranges::HEADING_MOST
}

// A heading is one that can be read, and no later slot holds it.
fn valid_heading(headings: &[i32], i: usize) -> bool
    requires { i < length headings.now }
    ensures { let h = get_or headings.now i (pos 0) in result ≡ ((lt_z (neg_ℤ (pos heading_most)) h && le_z h (pos heading_most)) && not (among same_ℤ (drop (i + 1) headings.now) h)) }
{
    let h = headings[i];
    in_range(h) && !headings[i + 1..].contains(&h)
}

// What a slot asks is another for ticks, of which a free one is 0: so there are two, each of one line.
fn valid_headings(headings: &[i32]) -> bool
    ensures { result ≡ valid_headings headings.now }
{
    (0..headings.len()).all(|i| valid_heading(headings, i))
}

// Ticks and headings are both present; both absent will do where the table is not accepted.
#[tactic(auto, unfolding(crate::specs::Valid::valid_presence))]
fn valid_presence(stage: u8, s: Slots) -> bool
    ensures { result ≡ valid_presence stage s }
{
    if slots::ticks_held(&s.ticks) != 0 {
        0 < s.held
    } else {
        s.held == 0 && stage != 2
    }
}

#[tactic(auto, unfolding(crate::specs::Valid::valid_slots, crate::specs::Slots::held_headings))]
pub fn valid_slots(stage: u8, s: Slots) -> bool
    ensures { result ≡ valid_slots stage s }
{
    s.held <= 4
        && valid_ticks(&s.ticks)
        && valid_headings(&s.headings[..s.held])
        && valid_presence(stage, s)
}
