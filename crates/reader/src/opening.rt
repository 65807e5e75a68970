// What opening makes: a fresh record.
ghost use Rattle.std.specs.Prelude.{◌≡◌};
ghost use Rattle.reader.specs.Model.{fresh};

use crate::record::{Marks, Record};
use grid::nodes::{Node, Pair, Slots};
use row::reading::Choices;

pub(crate) fn fresh_record(stage: u8, choices: Choices) -> Record
    ensures { result ≡ fresh stage choices }
{
    let none = Node {
        tick: 0,
        heading: 0,
    };
    Record {
        marks: Marks {
            stage,
            line: 0,
            lines: 0,
            count: 0,
        },
        pair: Pair {
            first: none,
            second: none,
        },
        choices,
        slots: Slots {
            ticks: [0; 20],
            headings: [0; 4],
            held: 0,
        },
        kept: [0; 160],
    }
}
