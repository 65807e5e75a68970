// One line of the text, by its number.
ghost use Rattle.std.specs.Prelude.{◌≡◌, length};
ghost use Rattle.text.specs.Pen.{Puts, placed_by};
ghost use Rattle.hull.specs.Six.{components_of};
ghost use Rattle.proteus.specs.own.Step.{Slotted, line_put, step_of};

use grid::nodes::Slots;
use hull::six;
use hull::six::Six;
use qtf::writing;
use table::pairs;
use text::pen::Pen;

// A line was put, and the next byte goes to a place; or a part that would stand in it is out of bounds; or it is past the last: three ends, each said once.
#[derive(Clone, Copy)]
pub(crate) enum Step {
    Put(usize),
    Spoilt,
    Past,
}

// The slots of the first of the six, which say how they all are ordered.
fn slots_of(slots: Slots) -> Slots
    ensures same { result ≡ slots }
    ensures lengths { (length slots.ticks ≡ 20) × (length slots.headings ≡ 4) }
{
    slots
}

// The k-th line, from 0 on, with no line feed.
pub(crate) fn put_line(six: &Six, k: usize, pen: &mut Pen) -> Step
    ensures put { Puts (line_put (components_of six.now) k) pen.old pen.new }
    ensures step { result ≡ step_of (components_of six.now) k (placed_by pen.new).at }
    ensures slotted { Slotted (components_of six.now) }
{
    let first = six.components[0].table;
    let slots = slots_of(first.slots);
    if k < 5 {
        writing::put_head(pen, slots, k);
        return Step::Put(pen.end());
    }
    let Some(p) = pairs::kth(first.choices.coverage, slots, k - 5) else {
        return Step::Past;
    };
    let values = six.gather(p);
    if six::any_out(values) {
        return Step::Spoilt;
    }
    writing::put_row(pen, slots, p, values);
    Step::Put(pen.end())
}
