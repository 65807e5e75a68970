// The program for the design office: `proteusds full < file` prints the ProteusDS text of a WAMIT file that holds all six components, or a refusal. Document 02, M-100.
#![tactic(auto)]

ghost use Rattle.std.specs.Prelude.{◌≡◌, length};
ghost use Rattle.proteusds.specs.Six.{six_of, called_to};
ghost use Rattle.proteusds.specs.declared.six.Call.{Call};

mod printing;
mod six;
mod words;

use reader::reader::Place;
use reader::record::Record;
use six::Call;
use std::env::Env;
use streams::input;
use streams::input::Taker;

// A piece of the text, handed to all six.
fn handed(
    readers: [Record; 6],
    piece: &[u8],
    cells: &mut [i32; 76_800],
    flags: &mut [u8; 38_400],
) -> [Record; 6]
    ensures { six_of result cells.new flags.new ≡ called_to Call.Piece piece.now 6 (six_of readers cells.old flags.old) }
{
    six::each(Call::Piece, readers, piece, cells, flags)
}

// The six readers, which take the text. No more is wanted once the first of them is refused, which settles what is printed.
#[derive(Drop)]
struct Readings<'a> {
    readers: [Record; 6],
    cells: &'a mut [i32; 76_800],
    flags: &'a mut [u8; 38_400],
}

impl<'a> Taker for Readings<'a> {
    fn take(&mut self, piece: &[u8]) -> bool {
        self.readers = handed(self.readers, piece, self.cells, self.flags);
        six::is_open(self.readers[0])
    }
}

// The refusal of the first component that is not accepted: it is stuck, and says it again. Else the text, or what bars the six.
fn report(rt: &(impl Print + Eprint), readers: [Record; 6], cells: &mut [i32], flags: &mut [u8])
    requires { (length cells.old ≡ 76_800) × (length flags.old ≡ 38_400) }
{
    for k in 0..6 {
        let r = readers[k];
        if r.marks.stage != 2 {
            let outcome = six::one_at(Call::Close, k, r, b"", cells, flags);
            printing::component_refused(rt, (k + 1) as u8, outcome.answer);
            return;
        }
    }
    printing::text(rt, readers, cells);
}

// The cells and flags of the six tables, those of one behind those of the other. They are lent from here, since the prover takes the length of an array that is lent by its
// type, and would count one that is made.
fn run(
    rt: &(impl Input + Print + Eprint + Env),
    cells: &mut [i32; 76_800],
    flags: &mut [u8; 38_400],
) {
    let Some(coverage) = words::chosen(rt) else {
        printing::usage(rt);
        printing::refused(rt, 2, Place::Nowhere);
        return;
    };
    let none = [Record::new(); 6];
    let mut readings = Readings {
        readers: six::each(Call::Open(coverage), none, b"", cells, flags),
        cells,
        flags,
    };
    let mut buffer = [0u8; 65_536];
    let readable = input::each_piece(rt, &mut buffer, &mut readings);
    let Readings {
        readers,
        cells,
        flags,
    } = readings;
    if readable {
        let closed = six::each(Call::Close, readers, b"", cells, flags);
        report(rt, closed, cells, flags);
    }
}

fn main(rt: HostRuntime) {
    let mut cells = [0; 76_800];
    let mut flags = [0; 38_400];
    run(&rt, &mut cells, &mut flags);
}
