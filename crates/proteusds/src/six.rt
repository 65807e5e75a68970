// The six readers of one text: what is called of each, on the part of the cells and of the flags that is its own. Components are counted from 0 but where a table is opened.
ghost use Rattle.std.specs.Prelude.{◌≡◌, ◌<◌, eqb, length};
ghost use Rattle.reader.specs.Model.{state_of, out_of};
ghost use Rattle.hull.specs.Six.{components_of, components_with};
ghost use Rattle.proteusds.specs.Six.{called_of, called_at, part_of, parts_of, six_of, called_to};

use hull::six::{Component, Six};
use reader::reader::Outcome;
use reader::record::Record;

// Opening a difference table of a coverage, handing on text, or closing. An enum and no closure: one contract by equality, `called_of`, then says all three.
#[derive(Clone, Copy)]
pub(crate) enum Call {
    Open(u8),
    Piece,
    Close,
}

#[tactic(auto, unfolding(crate::specs::Six::called_of))]
fn one(
    call: Call,
    component: u8,
    r: Record,
    text: &[u8],
    cells: &mut [i32],
    flags: &mut [u8],
) -> Outcome
    ensures { out_of result cells.new flags.new ≡ called_of call component text.now (state_of r cells.old flags.old) }
{
    match call {
        Call::Open(coverage) => Record::open(0, component, coverage, cells, flags),
        Call::Piece => r.piece(text, cells, flags),
        Call::Close => r.close(cells, flags),
    }
}

// The same on the part of a component.
pub(crate) fn one_at(
    call: Call,
    k: usize,
    r: Record,
    text: &[u8],
    cells: &mut [i32],
    flags: &mut [u8],
) -> Outcome
    requires { (k < 6) × (length cells.old ≡ 76_800) × (length flags.old ≡ 38_400) }
    ensures { out_of result cells.new flags.new ≡ called_at call k text.now (state_of r cells.old flags.old) }
{
    let c = 12_800 * k;
    let f = 6_400 * k;
    one(
        call,
        (k + 1) as u8,
        r,
        text,
        &mut cells[c..c + 12_800],
        &mut flags[f..f + 6_400],
    )
}

// All six, one after the other. One that is refused is stuck, and says the same whatever is called of it.
pub(crate) fn each(
    call: Call,
    readers: [Record; 6],
    text: &[u8],
    cells: &mut [i32],
    flags: &mut [u8],
) -> [Record; 6]
    requires { (length cells.old ≡ 76_800) × (length flags.old ≡ 38_400) }
    ensures { six_of result cells.new flags.new ≡ called_to call text.now 6 (six_of readers cells.old flags.old) }
{
    let mut called = readers;
    for k in 0..6 {
        let outcome = one_at(call, k, called[k], text, cells, flags);
        called[k] = outcome.reader;
    }
    called
}

// Whether a reader takes more text: it has neither been closed nor refused.
pub(crate) fn is_open(r: Record) -> bool
    ensures { result ≡ eqb r.marks.stage 1 }
{
    r.marks.stage == 1
}

// The cells of a component, to be looked at.
fn cells_of(k: usize, cells: &[i32]) -> &[i32]
    requires { (k < 6) × (length cells.now ≡ 76_800) }
    ensures { result.now ≡ part_of 12_800 k cells.now }
{
    let c = 12_800 * k;
    &cells[c..c + 12_800]
}

// The six tables, each with its own part of the cells, to be looked at.
pub(crate) fn tables<'a>(readers: &'a [Record; 6], cells: &'a [i32]) -> Six<'a>
    requires { length cells.now ≡ 76_800 }
    ensures { components_of result ≡ components_with readers.now (parts_of cells.now) }
{
    let [first, second, third, fourth, fifth, sixth] = readers;
    Six {
        components: [
            Component {
                table: first,
                cells: cells_of(0, cells),
            },
            Component {
                table: second,
                cells: cells_of(1, cells),
            },
            Component {
                table: third,
                cells: cells_of(2, cells),
            },
            Component {
                table: fourth,
                cells: cells_of(3, cells),
            },
            Component {
                table: fifth,
                cells: cells_of(4, cells),
            },
            Component {
                table: sixth,
                cells: cells_of(5, cells),
            },
        ],
    }
}
