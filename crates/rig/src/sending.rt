// The bench's answers, written: each line is put together in an array and written at once, and a listing line by line. A write that fails is said on standard error.
use accounts::explanation;
use explain::explainer::Told;
use lines::{listing, refusal};
use origins::memory::Origins;
use reader::reader::Place;
use reader::record::Record;
use reasons::explanation::Explanation;
use replies::reply::Reply;
use replies::{answers, record};
use streams::output;
use text::pen::Pen;

fn put_reply(rt: &(impl Print + Eprint), reply: Reply) -> bool {
    let mut line = [0u8; 80];
    let mut pen = Pen::new(&mut line);
    answers::put_reply(&mut pen, reply);
    output::put_line(rt, &mut pen)
}

fn put_record(rt: &(impl Print + Eprint), r: Record) -> bool {
    let mut line = [0u8; 400];
    let mut pen = Pen::new(&mut line);
    record::put_record(&mut pen, r);
    output::put_line(rt, &mut pen)
}

fn put_refusal(rt: &(impl Print + Eprint), number: u8) -> bool {
    let mut line = [0u8; 80];
    let mut pen = Pen::new(&mut line);
    refusal::put(&mut pen, number, Place::Nowhere);
    output::put_line(rt, &mut pen)
}

// What explains a refusal; of `held` the line has 24 numbers.
fn put_explanation(rt: &(impl Print + Eprint), e: Explanation, origins: Origins) -> bool {
    let mut line = [0u8; 400];
    let mut pen = Pen::new(&mut line);
    explanation::put_explanation(&mut pen, e, origins);
    output::put_line(rt, &mut pen)
}

fn put_text(rt: &(impl Print + Eprint), text: &[u8]) -> bool {
    let mut line = [0u8; 80];
    let mut pen = Pen::new(&mut line);
    pen.word(text);
    output::put_line(rt, &mut pen)
}

// The listing's lines, until an empty one; the refusal of the query, where it is refused.
fn put_listing(rt: &(impl Print + Eprint), r: Record, cells: &[i32]) -> bool {
    for k in 0..usize::MAX {
        match listing::line_at(r, cells, k) {
            Err(refusal) => return put_refusal(rt, refusal.number()),
            Ok(line) if line.len == 0 => return true,
            Ok(line) => {
                if !put_text(rt, line.text()) {
                    return false;
                }
            }
        }
    }
    true
}

// A reply, and behind the line of a ProteusDS text the text's bytes; whether all of it was written.
pub(crate) fn send_text(rt: &(impl Print + Eprint), reply: Reply, out: &[u8]) -> bool {
    if !put_reply(rt, reply) {
        return false;
    }
    match reply {
        Reply::Proteus(length) => output::put(rt, out, length),
        _ => true,
    }
}

// What `explain` comes to.
pub(crate) fn send_told(rt: &(impl Print + Eprint), told: Option<Told>) -> bool {
    match told {
        Some(told) => put_explanation(rt, told.explanation, told.explainer.origins),
        None => put_reply(rt, Reply::Unknown),
    }
}

// A command is answered, from a record and the cells that are lent; whether the answer was written.
pub(crate) fn send(rt: &(impl Print + Eprint), reply: Reply, r: Record, cells: &[i32]) -> bool {
    match reply {
        Reply::Listing => put_listing(rt, r, cells),
        Reply::Record => put_record(rt, r),
        _ => put_reply(rt, reply),
    }
}
