// What the program says of a refusal: the sentence of what explains it, or what the text gives instead.
ghost use Rattle.std.specs.Prelude.{◌≡◌};
ghost use Rattle.text.specs.Pen.{Puts};
ghost use Rattle.reasons.specs.Told.{numbered};
ghost use Rattle.telling.specs.Said.{given_text, nothing_text, row_refused, said_text};

use lines::refusal;
use reader::reader::Answer;
use reader::record::Record;
use reasons::explanation;
use reasons::explanation::Explanation;
use row::reading::{Entry, Row};
use text::pen::Pen;
use wording::sentences;

// What the text gives.
#[tactic(auto, unfolding(crate::specs::Said::given_text, field::specs::Text::bytes))]
fn put_given(pen: &mut Pen, given: Answer)
    ensures { Puts (given_text given) pen.old pen.new }
{
    match given {
        Answer::Going => pen.word(b"the text goes on"),
        Answer::Accepted(frequencies, headings) => {
            pen.word(b"the text is accepted, frequencies ");
            pen.natural(frequencies as u64);
            pen.word(b", headings ");
            pen.natural(headings as u64);
        }
        Answer::Refused(number, place) => {
            pen.word(b"the text gives ");
            refusal::put(pen, number, place);
        }
    }
}

// A refusal that nothing else has a part in.
#[tactic(auto, unfolding(crate::specs::Said::nothing_text, field::specs::Text::bytes))]
fn put_nothing(pen: &mut Pen, given: Answer)
    ensures { Puts (nothing_text given) pen.old pen.new }
{
    if let Answer::Refused(number, place) = given {
        refusal::put(pen, number, place);
        pen.word(b": no other line or field has a part in it");
    } else {
        put_given(pen, given);
    }
}

// The refused row; a line that is no row says nothing.
#[tactic(auto, unfolding(crate::specs::Said::row_refused, crate::specs::Said::entry_in))]
fn row_refused(r: Record) -> Entry
    ensures { result ≡ row_refused r }
{
    match explanation::row_kept(r) {
        Ok(Row::Used(e)) => e,
        _ => Entry {
            tick1: 0,
            tick2: 0,
            heading1: 0,
            heading2: 0,
            re: 0,
            im: 0,
        },
    }
}

// What is printed first.
#[tactic(auto, unfolding(crate::specs::Said::said_text))]
pub fn put_said(pen: &mut Pen, r: Record, given: Answer, e: Explanation)
    ensures { Puts (said_text r given (numbered e)) pen.old pen.new }
{
    let m = r.marks;
    match e {
        Explanation::Nothing => put_nothing(pen, given),
        Explanation::Field(field) => sentences::put_field(pen, m.line, m.stage, field),
        Explanation::Held => sentences::put_full(pen, m.line, row_refused(r)),
        Explanation::Set(clash) => sentences::put_clash(pen, m.line, row_refused(r), clash),
        Explanation::Brought(bringers) => sentences::put_missing(pen, r.pair, bringers),
        Explanation::Refused(_) => put_given(pen, given),
    }
}
