// A text of so many bytes that stands in the script behind a command, with a line feed behind it. It is handed on in parts of 64 KiB, while it is longer, and a last one.
ghost use Rattle.std.specs.Prelude.{◌≡◌, length};

use feed::input;
use feed::input::{Input, Span, Until};
use std::io::Input as StandardInput;

const PART: usize = 65_536;

// Where the script goes on, and how many bytes of the text are left there.
#[derive(Clone, Copy)]
pub(crate) struct Text {
    pub input: Input,
    pub left: u64,
}

// A part with more behind it, or the last, which the line feed follows; none where the script has too few bytes, or no line feed there.
#[derive(Clone, Copy)]
pub(crate) enum Part {
    Middle(Span),
    Last(Span),
    Missing,
}

// The next part, and the text behind it.
pub(crate) fn next_part(
    rt: &(impl StandardInput + Eprint),
    text: Text,
    buffer: &mut [u8],
) -> (Part, Text)
    ensures { length buffer.new ≡ length buffer.old }
{
    if text.left <= PART as u64 {
        last(rt, text, buffer)
    } else {
        middle(rt, text, buffer)
    }
}

fn middle(rt: &(impl StandardInput + Eprint), text: Text, buffer: &mut [u8]) -> (Part, Text)
    ensures { length buffer.new ≡ length buffer.old }
{
    let on = input::gather(rt, text.input, buffer, Until::Bytes(PART));
    let behind = Text {
        input: on.past(PART),
        left: text.left.saturating_sub(PART as u64),
    };
    if on.held() < PART {
        return (Part::Missing, behind);
    }
    (Part::Middle(on.next_bytes(PART, buffer.len())), behind)
}

fn last(rt: &(impl StandardInput + Eprint), text: Text, buffer: &mut [u8]) -> (Part, Text)
    ensures { length buffer.new ≡ length buffer.old }
{
    let n = text.left as usize;
    let on = input::gather(rt, text.input, buffer, Until::Bytes(n.saturating_add(1)));
    if !on.feed_behind(n, buffer) {
        let input = on.past(n);
        return (Part::Missing, Text { input, left: 0 });
    }
    let input = on.past(n.saturating_add(1));
    (
        Part::Last(on.next_bytes(n, buffer.len())),
        Text { input, left: 0 },
    )
}
