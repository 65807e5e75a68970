// `lend`, `open` and `close`.
ghost use Rattle.std.specs.Prelude.{◌≡◌};
ghost use Rattle.script.specs.Place.{number_at, natural_of, first_among};
ghost use Rattle.changing.specs.Calls.{lend_as, calling, opened_as, open_with, open_as, close_as};

use asking::lent::Lent;
use asking::question;
use reader::reader::Answer;
use reader::record::Record;
use replies::reply::Reply;
use row::reading::Choices;
use script::numbers::Numbers;

// The record after a command, and what the command comes to.
#[derive(Clone, Copy)]
pub struct Called {
    pub reader: Record,
    pub reply: Reply,
}

// A command that is none leaves the record as it was.
pub fn uncalled(reader: Record) -> Called
    ensures { result ≡ record { reader = reader; reply = Reply.Unknown } }
{
    Called {
        reader,
        reply: Reply::Unknown,
    }
}

// `lend CELLS FLAGS`.
#[tactic(auto, unfolding(crate::specs::Calls::lend_as))]
pub fn lend(n: &Numbers) -> Reply
    ensures { result ≡ lend_as (first_among 2 n.now) (natural_of (number_at n.now 1)) }
{
    let Some(cells) = n.first_among(2) else {
        return Reply::Unknown;
    };
    let Some(flags) = n.natural_at(1) else {
        return Reply::Unknown;
    };
    if 12_900 < cells || 6_500 < flags {
        return Reply::Unknown;
    }
    Reply::Lent(cells as usize, flags as usize)
}

// What an opening comes to: one that is refused leaves the bench's record as it was.
#[tactic(auto, unfolding(crate::specs::Calls::opened_as))]
fn opened(r: Record, reader: Record, answer: Answer) -> Called
    ensures { result ≡ opened_as r reader answer }
{
    match answer {
        Answer::Going => Called {
            reader,
            reply: Reply::Open,
        },
        _ => Called {
            reader: r,
            reply: Reply::Answered(answer),
        },
    }
}

// An opening with choices, which is lent the first cells and flags.
fn open_with(r: Record, choices: Choices, lent: Lent, cells: &mut [i32], flags: &mut [u8]) -> Called
    ensures { calling result cells.new flags.new ≡ open_with r choices lent cells.old flags.old }
{
    let c = lent.cells.min(cells.len());
    let f = lent.flags.min(flags.len());
    let outcome = Record::open(
        choices.kind,
        choices.component,
        choices.coverage,
        &mut cells[..c],
        &mut flags[..f],
    );
    opened(r, outcome.reader, outcome.answer)
}

// `open KIND COMPONENT COVERAGE`.
#[tactic(auto, unfolding(crate::specs::Calls::open_as, crate::specs::Calls::open_by))]
pub fn open(r: Record, n: &Numbers, lent: Lent, cells: &mut [i32], flags: &mut [u8]) -> Called
    ensures { calling result cells.new flags.new ≡ open_as r n.now lent cells.old flags.old }
{
    if n.count != 3 {
        return uncalled(r);
    }
    let Some(choices) = question::chosen_in(n, 0, 1, 2) else {
        return uncalled(r);
    };
    open_with(r, choices, lent, cells, flags)
}

// `close`, which is lent them too.
#[tactic(auto, unfolding(crate::specs::Calls::close_as))]
pub fn close(r: Record, n: &Numbers, lent: Lent, cells: &mut [i32], flags: &mut [u8]) -> Called
    ensures { calling result cells.new flags.new ≡ close_as r n.now lent cells.old flags.old }
{
    if n.count != 0 {
        return uncalled(r);
    }
    let c = lent.cells.min(cells.len());
    let f = lent.flags.min(flags.len());
    let outcome = r.close(&mut cells[..c], &mut flags[..f]);
    Called {
        reader: outcome.reader,
        reply: Reply::Answered(outcome.answer),
    }
}
