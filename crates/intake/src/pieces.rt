// `piece N`: N bytes of the script as they are, handed to the reader, and then a line feed.
ghost use Rattle.std.specs.Prelude.{◌≡◌, length};

use crate::texts;
use crate::texts::{Part, Text};
use asking::lent::Lent;
use feed::input::Input;
use reader::record::Record;
use replies::reply::Reply;
use script::numbers::Numbers;
use std::io::Input as StandardInput;

// The record after a piece, where the script goes on, and the answer.
#[derive(Clone, Copy)]
pub struct Pieced {
    pub reader: Record,
    pub input: Input,
    pub reply: Reply,
}

fn unknown(reader: Record, input: Input) -> Pieced {
    Pieced {
        reader,
        input,
        reply: Reply::Unknown,
    }
}

// All of a piece, part by part. Where the script ends too early, the parts before have been read. A proved loop has to end: the turns are counted, to a number that no
// run comes to.
fn parts(
    rt: &(impl StandardInput + Eprint),
    r: Record,
    piece: Text,
    buffer: &mut [u8],
    cells: &mut [i32],
    flags: &mut [u8],
) -> Pieced {
    let mut reader = r;
    let mut text = piece;
    for _ in 0..u64::MAX {
        let (part, behind) = texts::next_part(rt, text, buffer);
        text = behind;
        match part {
            Part::Middle(span) => reader = reader.piece(span.of(buffer), cells, flags).reader,
            Part::Last(span) => {
                let outcome = reader.piece(span.of(buffer), cells, flags);
                return Pieced {
                    reader: outcome.reader,
                    input: text.input,
                    reply: Reply::Answered(outcome.answer),
                };
            }
            Part::Missing => return unknown(reader, text.input),
        }
    }
    unknown(reader, text.input)
}

// The reader is lent the first cells and flags.
pub fn piece(
    rt: &(impl StandardInput + Eprint),
    r: Record,
    n: &Numbers,
    lent: Lent,
    i: Input,
    buffer: &mut [u8],
    cells: &mut [i32],
    flags: &mut [u8],
) -> Pieced
    ensures buffer_len_unchanged { length buffer.new ≡ length buffer.old }
    ensures cells_len_unchanged { length cells.new ≡ length cells.old }
    ensures flags_len_unchanged { length flags.new ≡ length flags.old }
{
    let Some(left) = n.first_among(1) else {
        return unknown(r, i);
    };
    let c = lent.cells.min(cells.len());
    let f = lent.flags.min(flags.len());
    let text = Text { input: i, left };
    parts(rt, r, text, buffer, &mut cells[..c], &mut flags[..f])
}
