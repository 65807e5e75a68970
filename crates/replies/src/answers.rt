// An answer as a line.
ghost use Rattle.text.specs.Pen.{Puts};
ghost use Rattle.replies.specs.Reply.{answer_text, reply_text};

use crate::reply::Reply;
use behind::parts;
use lines::refusal;
use reader::reader::Answer;
use text::pen::Pen;

#[tactic(auto, unfolding(crate::specs::Reply::answer_text, field::specs::Text::bytes))]
fn put_answer(pen: &mut Pen, a: Answer)
    ensures { Puts (answer_text a) pen.old pen.new }
{
    match a {
        Answer::Going => pen.word(b"going"),
        Answer::Accepted(frequencies, headings) => parts::put_line(
            pen,
            b"accepted",
            &[frequencies as u64, headings as u64],
        ),
        Answer::Refused(number, place) => refusal::put(pen, number, place),
    }
}

// A reply's line, but for a listing and a record, which the reply does not hold; of a ProteusDS text it is the line before the text.
#[tactic(auto, unfolding(crate::specs::Reply::reply_text, field::specs::Text::bytes))]
pub fn put_reply(pen: &mut Pen, reply: Reply)
    ensures { Puts (reply_text reply) pen.old pen.new }
{
    match reply {
        Reply::Lent(c, f) => parts::put_line(pen, b"lent", &[c as u64, f as u64]),
        Reply::Open => pen.word(b"open"),
        Reply::Answered(answer) => put_answer(pen, answer),
        Reply::Coefficient(re, im) => parts::put_line(pen, b"coefficient", &[re, im]),
        Reply::Sea(n) => parts::put_line(pen, b"sea", &[n as u64]),
        Reply::Force(z) => parts::put_line(pen, b"force", &[z]),
        Reply::ShownForce(mean, whole) => parts::put_line(pen, b"force", &[mean, whole]),
        Reply::ShownMoment(mean, whole) => parts::put_line(pen, b"moment", &[mean, whole]),
        Reply::Kept(n) => parts::put_line(pen, b"kept", &[u32::from(n)]),
        Reply::Cell(re, im, flag) => {
            parts::put_line(pen, b"cell", &[re, im]);
            pen.next_natural(u64::from(flag));
        }
        Reply::Poked => pen.word(b"poked"),
        Reply::Spilt(v) => parts::put_line(pen, b"spilt", &[u32::from(v)]),
        Reply::Forged => pen.word(b"forged"),
        Reply::Sum(s) => parts::put_line(pen, b"sum", &[s]),
        Reply::Proteus(n) => parts::put_line(pen, b"proteus", &[n as u64]),
        Reply::Listing | Reply::Record | Reply::Unknown => pen.word(b"?"),
    }
}
