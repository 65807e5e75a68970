// `forge`: a part of the record set to a number, as no call would. A command with other numbers is none.
ghost use Rattle.std.specs.Prelude.{◌≡◌};
ghost use Rattle.script.specs.Place.{number_at, natural_of, word_of, byte_of, signed_of, first_among, only_byte_of};
ghost use Rattle.changing.specs.Forging.{kind_set, component_set, coverage_set, stage_as, choice_as, lines_as, headings_as, kept_as, tick_as, heading_as, byte_as, forge_as};

use reader::record::Record;
use script::numbers::Numbers;
use script::words::Part;

#[tactic(auto, unfolding(crate::specs::Forging::stage_as))]
fn stage(mut r: Record, n: &Numbers) -> Option<Record>
    ensures { result ≡ stage_as r (only_byte_of n.now) }
{
    r.marks.stage = n.only_byte()?;
    Some(r)
}

#[tactic(auto, unfolding(crate::specs::Forging::choice_as))]
fn kind(mut r: Record, n: &Numbers) -> Option<Record>
    ensures { result ≡ choice_as r kind_set (only_byte_of n.now) }
{
    r.choices.kind = n.only_byte()?;
    Some(r)
}

#[tactic(auto, unfolding(crate::specs::Forging::choice_as))]
fn component(mut r: Record, n: &Numbers) -> Option<Record>
    ensures { result ≡ choice_as r component_set (only_byte_of n.now) }
{
    r.choices.component = n.only_byte()?;
    Some(r)
}

#[tactic(auto, unfolding(crate::specs::Forging::choice_as))]
fn coverage(mut r: Record, n: &Numbers) -> Option<Record>
    ensures { result ≡ choice_as r coverage_set (only_byte_of n.now) }
{
    r.choices.coverage = n.only_byte()?;
    Some(r)
}

#[tactic(auto, unfolding(crate::specs::Forging::lines_as))]
fn lines(mut r: Record, n: &Numbers) -> Option<Record>
    ensures { result ≡ lines_as r (first_among 1 n.now) }
{
    r.marks.lines = u32::try_from(n.first_among(1)?).ok()?;
    Some(r)
}

// How many headings are held.
#[tactic(auto, unfolding(crate::specs::Forging::headings_as))]
fn headings(mut r: Record, n: &Numbers) -> Option<Record>
    ensures { result ≡ headings_as r (first_among 1 n.now) }
{
    r.slots.held = n.first_among(1)? as usize;
    Some(r)
}

// How many bytes are kept.
#[tactic(auto, unfolding(crate::specs::Forging::kept_as))]
fn kept(mut r: Record, n: &Numbers) -> Option<Record>
    ensures { result ≡ kept_as r (first_among 1 n.now) }
{
    r.marks.count = n.first_among(1)? as usize;
    Some(r)
}

#[tactic(auto, unfolding(crate::specs::Forging::tick_as))]
fn tick(mut r: Record, n: &Numbers) -> Option<Record>
    ensures { result ≡ tick_as r (first_among 2 n.now) (word_of (natural_of (number_at n.now 1))) }
{
    let i = n.first_among(2)?;
    let v = n.word_at(1)?;
    if 19 < i {
        return None;
    }
    r.slots.ticks[i as usize] = v;
    Some(r)
}

// As `tick` does, for another list of the record, of another kind of number: one function would have to be lent the list by a closure.
#[tactic(auto, unfolding(crate::specs::Forging::heading_as))]
fn heading(mut r: Record, n: &Numbers) -> Option<Record>
    ensures { result ≡ heading_as r (first_among 2 n.now) (signed_of (number_at n.now 1)) }
{
    let i = n.first_among(2)?;
    let v = n.signed_at(1)?;
    if 3 < i {
        return None;
    }
    r.slots.headings[i as usize] = v;
    Some(r)
}

// A kept byte.
#[tactic(auto, unfolding(crate::specs::Forging::byte_as))]
fn byte(mut r: Record, n: &Numbers) -> Option<Record>
    ensures { result ≡ byte_as r (first_among 2 n.now) (byte_of (natural_of (number_at n.now 1))) }
{
    let i = n.first_among(2)?;
    let v = n.byte_at(1)?;
    if 159 < i {
        return None;
    }
    r.kept[i as usize] = v;
    Some(r)
}

// The record with the part set; none where the command is none.
#[tactic(auto, unfolding(crate::specs::Forging::forge_as))]
pub fn forge(r: Record, part: Part, n: &Numbers) -> Option<Record>
    ensures { result ≡ forge_as r part n.now }
{
    match part {
        Part::Stage => stage(r, n),
        Part::Kind => kind(r, n),
        Part::Component => component(r, n),
        Part::Coverage => coverage(r, n),
        Part::Lines => lines(r, n),
        Part::Headings => headings(r, n),
        Part::Kept => kept(r, n),
        Part::Tick => tick(r, n),
        Part::Heading => heading(r, n),
        Part::Byte => byte(r, n),
        Part::Unknown => None,
    }
}
