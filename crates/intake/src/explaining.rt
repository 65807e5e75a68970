// `explain`: what explains a refusal of the text that stands behind the command. It has cells, flags and lines of its own, so that the bench's record, cells and flags
// stay as they are.
ghost use Rattle.std.specs.Prelude.{◌≡◌, length};

use crate::texts;
use crate::texts::{Part, Text};
use asking::lent::Lent;
use asking::question;
use asking::question::Question;
use explain::explainer::{Explainer, Told};
use feed::input::Input;
use script::numbers::Numbers;
use std::io::Input as StandardInput;

// Where the script goes on, and what closing the explainer told; nothing where the command is none.
#[derive(Clone, Copy)]
pub struct Explained {
    pub input: Input,
    pub told: Option<Told>,
}

// One that is refused leaves an explainer that says so when it is closed.
fn open(q: Question, cells: &mut [i32], flags: &mut [u8], lines: &mut [u32]) -> Explainer {
    let c = q.choices;
    Explainer::open(
        c.kind,
        c.component,
        c.coverage,
        q.stated,
        cells,
        flags,
        lines,
    )
    .explainer
}

// All of the text, part by part, and closing, where the script goes on behind the text. A proved loop has to end: the turns are counted, to a number that no run comes to.
fn parts(
    rt: &(impl StandardInput + Eprint),
    opened: Explainer,
    all: Text,
    buffer: &mut [u8],
    cells: &mut [i32],
    flags: &mut [u8],
    lines: &mut [u32],
) -> Explained {
    let mut x = opened;
    let mut text = all;
    for _ in 0..u64::MAX {
        let (part, behind) = texts::next_part(rt, text, buffer);
        text = behind;
        match part {
            Part::Middle(span) => x = x.piece(span.of(buffer), cells, flags, lines).explainer,
            Part::Last(span) => {
                let fed = x.piece(span.of(buffer), cells, flags, lines).explainer;
                return Explained {
                    input: text.input,
                    told: Some(fed.close(cells, flags, lines)),
                };
            }
            Part::Missing => break,
        }
    }
    Explained {
        input: text.input,
        told: None,
    }
}

// All of it, with the cells, flags and lines that are lent.
fn explain_lent(
    rt: &(impl StandardInput + Eprint),
    q: Question,
    i: Input,
    buffer: &mut [u8],
    cells: &mut [i32],
    flags: &mut [u8],
    lines: &mut [u32],
) -> Explained {
    let opened = open(q, cells, flags, lines);
    let text = Text {
        input: i,
        left: q.bytes,
    };
    parts(rt, opened, text, buffer, cells, flags, lines)
}

// The calls are lent the first cells, flags and lines. A command that is none for its numbers takes no more of the script than its line.
pub fn explain(
    rt: &(impl StandardInput + Eprint),
    n: &Numbers,
    lent: Lent,
    i: Input,
    buffer: &mut [u8],
    cells: &mut [i32],
    flags: &mut [u8],
    lines: &mut [u32],
) -> Explained
    ensures buffer_len_unchanged { length buffer.new ≡ length buffer.old }
    ensures cells_len_unchanged { length cells.new ≡ length cells.old }
    ensures flags_len_unchanged { length flags.new ≡ length flags.old }
    ensures lines_len_unchanged { length lines.new ≡ length lines.old }
{
    let Some(q) = question::question_in(n) else {
        return Explained {
            input: i,
            told: None,
        };
    };
    let c = lent.cells.min(cells.len());
    let f = lent.flags.min(flags.len());
    let l = lent.flags.min(lines.len());
    explain_lent(
        rt,
        q,
        i,
        buffer,
        &mut cells[..c],
        &mut flags[..f],
        &mut lines[..l],
    )
}
