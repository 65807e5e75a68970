// The bench, command by command: what it keeps, and one turn after the other until the script is over.
ghost use Rattle.std.specs.Prelude.{◌≡◌, length};

use crate::commands::Bench;
use crate::{commands, sending};
use asking::lent::Lent;
use changing::keeping;
use feed::input;
use feed::input::{Flow, Input};
use intake::{explaining, pieces, seas};
use reader::record::Record;
use replies::reply::Reply;
use script::words;
use script::words::{Command, Verb};
use std::io::Input as StandardInput;
use table::cells;

// The bench after a command, and where the script goes on. There is none where it does not: where there was no command, where standard input failed in the middle of one,
// or where its answer could not be written.
#[derive(Clone, Copy)]
struct Turn {
    bench: Bench,
    input: Input,
}

// A command that standard input failed in the middle of is not answered.
fn unless_failed(input: Input) -> Option<Input> {
    if input.flow == Flow::Failed {
        return None;
    }
    Some(input)
}

// The script goes on where the command's answer was written.
fn turned(bench: Bench, input: Input, sent: bool) -> Option<Turn> {
    if !sent {
        return None;
    }
    Some(Turn { bench, input })
}

// A command is answered from the cells that are lent; whether the answer was written.
fn send(rt: &(impl Print + Eprint), reply: Reply, r: Record, lent: Lent, cells: &[i32]) -> bool {
    let c = lent.cells.min(cells.len());
    sending::send(rt, reply, r, &cells[..c])
}

// `piece`, which takes more of the script than its line.
fn obey_piece(
    rt: &(impl StandardInput + Print + Eprint),
    b: Bench,
    c: &Command,
    i: Input,
    buffer: &mut [u8],
    cells: &mut [i32],
    flags: &mut [u8],
) -> Option<Turn> {
    let p = pieces::piece(rt, b.reader, &c.numbers, b.lent, i, buffer, cells, flags);
    let input = unless_failed(p.input)?;
    let bench = Bench {
        reader: p.reader,
        ..b
    };
    turned(bench, input, send(rt, p.reply, p.reader, b.lent, cells))
}

// `sea`, which does so too.
fn obey_sea(
    rt: &(impl StandardInput + Print + Eprint),
    b: Bench,
    c: &Command,
    i: Input,
    buffer: &mut [u8],
    cells: &[i32],
) -> Option<Turn> {
    let s = seas::sea(rt, b.sea, &c.numbers, i, buffer);
    let input = unless_failed(s.input)?;
    let bench = Bench { sea: s.sea, ..b };
    turned(bench, input, send(rt, s.reply, b.reader, b.lent, cells))
}

// `explain`, which takes more of the script too, and leaves the bench as it is.
fn obey_explain(
    rt: &(impl StandardInput + Print + Eprint),
    b: Bench,
    c: &Command,
    i: Input,
    buffer: &mut [u8],
    cells: &mut [i32],
    flags: &mut [u8],
    lines: &mut [u32],
) -> Option<Turn> {
    let e = explaining::explain(rt, &c.numbers, b.lent, i, buffer, cells, flags, lines);
    let input = unless_failed(e.input)?;
    turned(b, input, sending::send_told(rt, e.told))
}

// `keep`, which leaves all but the six places as it is.
fn obey_keep(
    rt: &(impl Print + Eprint),
    b: Bench,
    places: &mut [Record; 6],
    c: &Command,
    i: Input,
    cells: &[i32],
    kept: &mut [i32],
) -> Option<Turn> {
    let k = keeping::keep(&c.numbers, cells, kept);
    if let Some(place) = k.place {
        if place < places.len() {
            places[place] = b.reader;
        }
    }
    turned(b, i, send(rt, k.reply, b.reader, b.lent, cells))
}

// `proteus`, which leaves all as it is.
fn obey_proteus(
    rt: &(impl Print + Eprint),
    b: Bench,
    places: [Record; 6],
    c: &Command,
    i: Input,
    kept: &[i32],
    out: &mut [u8],
) -> Option<Turn> {
    let reply = asking::places::proteus(places, &c.numbers, b.lent, kept, out);
    turned(b, i, sending::send_text(rt, reply, out))
}

// Any other command.
fn obey_other(
    rt: &(impl Print + Eprint),
    b: Bench,
    c: &Command,
    i: Input,
    cells: &mut [i32],
    flags: &mut [u8],
) -> Option<Turn> {
    let called = commands::call(b, c, cells, flags);
    let bench = Bench {
        reader: called.reader,
        lent: commands::lent_by(called.reply, b.lent),
        ..b
    };
    turned(
        bench,
        i,
        send(rt, called.reply, called.reader, b.lent, cells),
    )
}

// The next line is read, and its command done and answered.
fn step(
    rt: &(impl StandardInput + Print + Eprint),
    b: Bench,
    places: &mut [Record; 6],
    i: Input,
    buffer: &mut [u8],
    cells: &mut [i32],
    flags: &mut [u8],
    kept: &mut [i32],
    out: &mut [u8],
    values: &mut [i32],
    marks: &mut [u8],
    lines: &mut [u32],
) -> Option<Turn> {
    let line = input::next_line(rt, i, buffer);
    let text = line.text?;
    let on = line.input;
    let c = words::command_in(text.of(buffer));
    match c.verb {
        Verb::Piece => obey_piece(rt, b, &c, on, buffer, cells, flags),
        Verb::Sea => obey_sea(rt, b, &c, on, buffer, cells),
        Verb::Explain => obey_explain(rt, b, &c, on, buffer, values, marks, lines),
        Verb::Keep => obey_keep(rt, b, places, &c, on, cells, kept),
        Verb::Proteus => obey_proteus(rt, b, *places, &c, on, kept, out),
        _ => obey_other(rt, b, &c, on, cells, flags),
    }
}

// The bench before any command.
fn start() -> Bench {
    Bench {
        reader: Record::new(),
        lent: Lent {
            cells: cells::CELLS,
            flags: cells::FLAGS,
        },
        sea: seas::calm(),
    }
}

// The script, command by command, until it is over or standard input or output fails, which is said on standard error. No contract can speak of what is
// read and written, and what the slices hold at the end comes of that: so all that is promised of them is their lengths.
// A proved loop has to end, and nothing says that the input does: so the turns are counted, to a number that no run comes to.
// The slices go one by one: of a struct that holds them several would be lent in one call, which the borrow checker does not cover.
// `kept` has the cells of the six places, `out` holds a ProteusDS text until it is written, and the last three are the cells, flags and lines that `explain` has of its own.
pub fn run(
    rt: &(impl StandardInput + Print + Eprint),
    buffer: &mut [u8],
    cells: &mut [i32],
    flags: &mut [u8],
    kept: &mut [i32],
    out: &mut [u8],
    values: &mut [i32],
    marks: &mut [u8],
    lines: &mut [u32],
)
    ensures buffer_len_unchanged { length buffer.new ≡ length buffer.old }
    ensures cells_len_unchanged { length cells.new ≡ length cells.old }
    ensures flags_len_unchanged { length flags.new ≡ length flags.old }
    ensures kept_len_unchanged { length kept.new ≡ length kept.old }
    ensures out_len_unchanged { length out.new ≡ length out.old }
    ensures values_len_unchanged { length values.new ≡ length values.old }
    ensures marks_len_unchanged { length marks.new ≡ length marks.old }
    ensures lines_len_unchanged { length lines.new ≡ length lines.old }
{
    let mut bench = start();
    let mut places = [Record::new(); 6];
    let mut input = Input::fresh();
    for _ in 0..u64::MAX {
        let Some(turn) = step(
            rt,
            bench,
            &mut places,
            input,
            buffer,
            cells,
            flags,
            kept,
            out,
            values,
            marks,
            lines,
        ) else {
            return;
        };
        bench = turn.bench;
        input = turn.input;
    }
}
