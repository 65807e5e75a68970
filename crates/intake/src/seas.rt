// `sea N`: the next N lines of the script, which become the bench's sea.
ghost use Rattle.std.specs.Prelude.{◌≡◌, length};
ghost use Rattle.intake.specs.Calm.{calm_sea};

use feed::input;
use feed::input::Input;
use replies::reply::Reply;
use script::numbers::Numbers;
use script::words;
use seaway::sea::Sea;
use std::io::Input as StandardInput;

// The bench's sea after a command, where the script goes on, and the answer.
#[derive(Clone, Copy)]
pub struct Sailed {
    pub sea: Sea,
    pub input: Input,
    pub reply: Reply,
}

// A sea of no lines.
pub fn calm() -> Sea
    ensures { result ≡ calm_sea }
{
    Sea {
        count: 0,
        ticks: [0; 64],
        headings: [0; 64],
        re: [0; 64],
        im: [0; 64],
    }
}

// One line more. Those past the 64th are counted and dropped.
fn add(sea: &mut Sea, tick: u32, heading: i32, re: i32, im: i32) {
    let k = sea.count;
    if k < 64 {
        sea.ticks[k] = tick;
        sea.headings[k] = heading;
        sea.re[k] = re;
        sea.im[k] = im;
    }
    sea.count = k.saturating_add(1);
}

// The line of these numbers, put where the sea lies, which is not copied for each; none where they are no line of a sea.
fn add_line(sea: &mut Sea, n: &Numbers) -> Option<()> {
    if n.count != 4 {
        return None;
    }
    let tick = n.word_at(0)?;
    let heading = n.signed_at(1)?;
    let re = n.signed_at(2)?;
    let im = n.signed_at(3)?;
    add(sea, tick, heading, re, im);
    Some(())
}

fn unknown(sea: Sea, input: Input) -> Sailed {
    Sailed {
        sea,
        input,
        reply: Reply::Unknown,
    }
}

// All n lines are taken before they are judged, since the command is `sea` with its lines: one that is no line of a sea, or is not there, leaves the sea as it was.
fn lines(
    rt: &(impl StandardInput + Eprint),
    before: Sea,
    i: Input,
    n: usize,
    buffer: &mut [u8],
) -> Sailed {
    let mut taken = Some(calm());
    let mut on = i;
    for _ in 0..n {
        let line = input::next_line(rt, on, buffer);
        on = line.input;
        if let Some(sea) = &mut taken {
            let added = match line.text {
                Some(text) => add_line(sea, &words::numbers_in(text.of(buffer))),
                None => None,
            };
            if added.is_none() {
                taken = None;
            }
        }
    }
    match taken {
        Some(sea) => Sailed {
            sea,
            input: on,
            reply: Reply::Sea(n),
        },
        None => unknown(before, on),
    }
}

pub fn sea(
    rt: &(impl StandardInput + Eprint),
    before: Sea,
    n: &Numbers,
    i: Input,
    buffer: &mut [u8],
) -> Sailed
    ensures { length buffer.new ≡ length buffer.old }
{
    match n.first_among(1) {
        Some(count @ 0..=70) => lines(rt, before, i, count as usize, buffer),
        _ => unknown(before, i),
    }
}
