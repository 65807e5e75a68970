// The listing program: `listing difference 1 single < file` prints the table of a WAMIT file, or its refusal. Document 01, "Checked by hand".
#![tactic(auto)]

mod printing;
mod words;

use reader::reader::Answer;
use reader::record::Record;
use streams::input;
use streams::input::Taker;
use table::cells;

// A table's reader, which takes the text.
#[derive(Drop)]
struct Reading<'a> {
    reader: Record,
    cells: &'a mut [i32],
    flags: &'a mut [u8],
}

impl<'a> Taker for Reading<'a> {
    fn take(&mut self, piece: &[u8]) -> bool {
        let outcome = self.reader.piece(piece, self.cells, self.flags);
        self.reader = outcome.reader;
        matches!(outcome.answer, Answer::Going)
    }
}

fn main(rt: HostRuntime) {
    let mut cells = [0i32; cells::CELLS];
    let mut flags = [0u8; cells::FLAGS];
    let c = words::choices(&rt);
    let opened = Record::open(c.kind, c.component, c.coverage, &mut cells, &mut flags);
    let Answer::Going = opened.answer else {
        printing::usage(&rt);
        printing::refused(&rt, opened.answer);
        return;
    };
    let mut reading = Reading {
        reader: opened.reader,
        cells: &mut cells,
        flags: &mut flags,
    };
    let mut buffer = [0u8; 65_536];
    let readable = input::each_piece(&rt, &mut buffer, &mut reading);
    let reader = reading.reader;
    if !readable {
        return;
    }
    let closed = reader.close(&mut cells, &mut flags);
    let Answer::Accepted(_, _) = closed.answer else {
        printing::refused(&rt, closed.answer);
        return;
    };
    printing::table(&rt, closed.reader, &cells);
}
