// The commands by their verbs: what each is asked of, or done to.
use asking::lent::Lent;
use asking::{memory, queries};
use changing::calls::Called;
use changing::{calls, forging};
use reader::record::Record;
use replies::reply::Reply;
use script::numbers::Numbers;
use script::words::{Command, Verb};
use seaway::sea::Sea;

// What the bench keeps from command to command, but for its cells and flags and its six places.
#[derive(Clone, Copy)]
pub(crate) struct Bench {
    pub reader: Record,
    pub lent: Lent,
    pub sea: Sea,
}

// What later calls are lent.
pub(crate) fn lent_by(reply: Reply, before: Lent) -> Lent {
    match reply {
        Reply::Lent(cells, flags) => Lent { cells, flags },
        _ => before,
    }
}

fn forge(r: Record, c: &Command) -> Called {
    match forging::forge(r, c.part, &c.numbers) {
        Some(reader) => Called {
            reader,
            reply: Reply::Forged,
        },
        None => calls::uncalled(r),
    }
}

// The queries, of the cells that are lent and of no flags.
fn query(verb: Verb, r: Record, sea: Sea, n: &Numbers, cells: &[i32]) -> Reply {
    match verb {
        Verb::Coefficient => queries::coefficient(r, n, cells),
        Verb::Force => queries::force(r, sea, n, cells),
        Verb::Display => queries::display(r, sea, n, cells),
        _ => Reply::Unknown,
    }
}

// The commands that ask, and leave the bench as it is.
fn asked(b: Bench, verb: Verb, n: &Numbers, cells: &[i32], flags: &[u8]) -> Reply {
    match verb {
        Verb::Listing => queries::bare(n, Reply::Listing),
        Verb::Record => queries::bare(n, Reply::Record),
        Verb::Cell => memory::cell(n, cells, flags),
        Verb::Sum => memory::sum(n, cells, flags),
        _ => {
            let c = b.lent.cells.min(cells.len());
            query(verb, b.reader, b.sea, n, &cells[..c])
        }
    }
}

// Those that leave its record as it is.
fn replied(b: Bench, verb: Verb, n: &Numbers, cells: &mut [i32], flags: &mut [u8]) -> Reply {
    match verb {
        Verb::Lend => calls::lend(n),
        Verb::Poke => changing::memory::poke(n, cells, flags),
        Verb::Spill => changing::memory::spill(n, cells, flags),
        _ => asked(b, verb, n, cells, flags),
    }
}

// Any command that takes no more of the script than its line, and has nothing to do with the places.
pub(crate) fn call(b: Bench, c: &Command, cells: &mut [i32], flags: &mut [u8]) -> Called {
    match c.verb {
        Verb::Open => calls::open(b.reader, &c.numbers, b.lent, cells, flags),
        Verb::Close => calls::close(b.reader, &c.numbers, b.lent, cells, flags),
        Verb::Forge => forge(b.reader, c),
        verb => Called {
            reader: b.reader,
            reply: replied(b, verb, &c.numbers, cells, flags),
        },
    }
}
