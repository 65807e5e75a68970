// What explains a refusal, as a line.
ghost use Rattle.text.specs.Pen.{Puts};
ghost use Rattle.reasons.specs.Told.{numbered};
ghost use Rattle.accounts.specs.Explanation.{clash_text, bringers_text, origins_text, explanation_text};

use behind::parts;
use lines::refusal;
use origins::memory::Origins;
use reader::reader::Place;
use reasons::explanation::{Bringers, Clash, Explanation};
use text::pen::Pen;

fn put_clash(pen: &mut Pen, c: Clash)
    ensures { Puts (clash_text c) pen.old pen.new }
{
    parts::put_line(pen, b"set", &[c.line]);
    parts::next_numbers(pen, &[c.held.re, c.held.im, c.said.re, c.said.im]);
}

fn put_bringers(pen: &mut Pen, b: Bringers)
    ensures { Puts (bringers_text b) pen.old pen.new }
{
    parts::put_line(pen, b"brought", &[b.tick1, b.heading1, b.tick2, b.heading2]);
}

fn put_origins(pen: &mut Pen, o: Origins)
    ensures { Puts (origins_text o) pen.old pen.new }
{
    parts::put_line(pen, b"held", &o.ticks);
    parts::next_numbers(pen, &o.headings);
}

// An explanation says that slots are held, and the lines that brought them stand beside it.
#[tactic(auto, unfolding(crate::specs::Explanation::explanation_text, field::specs::Text::bytes))]
pub fn put_explanation(pen: &mut Pen, e: Explanation, origins: Origins)
    ensures { Puts (explanation_text origins (numbered e)) pen.old pen.new }
{
    match e {
        Explanation::Nothing => pen.word(b"nothing"),
        Explanation::Field(field) => parts::put_line(pen, b"field", &[u32::from(field)]),
        Explanation::Held => put_origins(pen, origins),
        Explanation::Set(clash) => put_clash(pen, clash),
        Explanation::Brought(bringers) => put_bringers(pen, bringers),
        Explanation::Refused(number) => refusal::put(pen, number, Place::Nowhere),
    }
}
