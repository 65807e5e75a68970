// What the program says, in a mate's words, each line put by a pen.
ghost use Rattle.std.specs.Prelude.{◌≡◌, cond, eqb, [], ◌∷◌, pos};
ghost use Rattle.text.specs.Pen.{Puts};
ghost use Rattle.template.specs.Filling.{filled};
ghost use Rattle.wording.specs.Sentences.{column_name, broken_rule, field_text, full_text, slot_text, clash_text, missing_text};

use grid::nodes::{Pair, Slots};
use origins::memory::Origins;
use reasons::explanation::{Bringers, Clash};
use row::reading::Entry;
use template::filling;
use text::pen::Pen;

// A column's name.
#[tactic(auto, unfolding(crate::specs::Sentences::column_name, field::specs::Text::bytes))]
fn column_name(field: u8) -> &'static [u8]
    ensures { result.now ≡ column_name field }
{
    match field {
        1 => b"PER1",
        2 => b"PER2",
        3 => b"BETA1",
        4 => b"BETA2",
        5 => b"I",
        6 => b"MOD",
        7 => b"PHS",
        8 => b"RE",
        9 => b"IM",
        _ => b"",
    }
}

// What is wrong with it.
#[tactic(auto, unfolding(crate::specs::Sentences::broken_rule, field::specs::Text::bytes))]
fn broken_rule(number: u8) -> &'static [u8]
    ensures { result.now ≡ broken_rule number }
{
    match number {
        5 => b", has the wrong form",
        _ => b", is out of range",
    }
}

// 5 and 6.
#[tactic(auto, unfolding(crate::specs::Sentences::field_text, field::specs::Text::bytes))]
pub fn put_field(pen: &mut Pen, line: u32, number: u8, field: u8)
    ensures { Puts (field_text line number field) pen.old pen.new }
{
    filling::fill(
        pen,
        b"line #: field #, ",
        &[i64::from(line), i64::from(field)],
    );
    pen.word(column_name(field));
    pen.word(broken_rule(number));
}

// 8.
#[tactic(auto, unfolding(crate::specs::Sentences::full_text, field::specs::Text::bytes))]
pub fn put_full(pen: &mut Pen, line: u32, e: Entry)
    ensures { Puts (full_text line e) pen.old pen.new }
{
    filling::fill(
        pen,
        b"line # says # @ # @, and there is no slot left for it",
        &[
            i64::from(line),
            i64::from(e.tick1),
            i64::from(e.heading1),
            i64::from(e.tick2),
            i64::from(e.heading2),
        ],
    );
}

// 9.
#[tactic(auto, unfolding(crate::specs::Sentences::clash_text, field::specs::Text::bytes))]
pub fn put_clash(pen: &mut Pen, line: u32, e: Entry, c: Clash)
    ensures { Puts (clash_text line e c) pen.old pen.new }
{
    filling::fill(
        pen,
        b"line # says % % of # @ # @; line # set it to % %",
        &[
            i64::from(line),
            i64::from(c.said.re),
            i64::from(c.said.im),
            i64::from(e.tick1),
            i64::from(e.heading1),
            i64::from(e.tick2),
            i64::from(e.heading2),
            i64::from(c.line),
            i64::from(c.held.re),
            i64::from(c.held.im),
        ],
    );
}

// 11.
#[tactic(auto, unfolding(crate::specs::Sentences::missing_text, field::specs::Text::bytes))]
pub fn put_missing(pen: &mut Pen, p: Pair, b: Bringers)
    ensures { Puts (missing_text p b) pen.old pen.new }
{
    filling::fill(
        pen,
        b"no row says # @ # @: line # brought frequency # and line # heading @; line # brought frequency # and line # heading @",
        &[
            i64::from(p.first.tick),
            i64::from(p.first.heading),
            i64::from(p.second.tick),
            i64::from(p.second.heading),
            i64::from(b.tick1),
            i64::from(p.first.tick),
            i64::from(b.heading1),
            i64::from(p.first.heading),
            i64::from(b.tick2),
            i64::from(p.second.tick),
            i64::from(b.heading2),
            i64::from(p.second.heading),
        ],
    );
}

// The line that brought what stands in a slot, where one did.
fn put_brought(pen: &mut Pen, line: u32, sentence: &[u8], slot: i64)
    ensures { Puts (cond (eqb line 0) [] (filled sentence.now (pos line ∷ slot ∷ []))) pen.old pen.new }
{
    if line != 0 {
        filling::fill(pen, sentence, &[i64::from(line), slot]);
    }
}

// The line of the k-th slot, of which there are 24; of a slot that no line brought, nothing.
#[tactic(auto, unfolding(crate::specs::Sentences::slot_text, crate::specs::Sentences::tick_text, crate::specs::Sentences::heading_text, field::specs::Text::bytes))]
pub fn put_slot(pen: &mut Pen, s: Slots, o: Origins, k: usize)
    ensures { Puts (slot_text s o k) pen.old pen.new }
{
    if k < 20 {
        put_brought(
            pen,
            o.ticks[k],
            b"line # brought frequency #",
            i64::from(s.ticks[k]),
        );
    } else if k < 24 {
        put_brought(
            pen,
            o.headings[k - 20],
            b"line # brought heading @",
            i64::from(s.headings[k - 20]),
        );
    }
}
