// The text that ProteusDS reads, a line at a time or the whole of it.
ghost use Rattle.std.specs.Prelude.{◌≡◌, []};
ghost use Rattle.text.specs.Pen.{Puts};
ghost use Rattle.hull.specs.Six.{components_of, six_barred};
ghost use Rattle.proteus.specs.Answer.{lined_in, line_at, wrote_in, text_number, proteus_text, outcome, written};
ghost use Rattle.proteus.specs.own.Step.{Counted, measured};

use crate::line;
use crate::line::Step;
use hull::six::Six;
use refusals::refusal::Refusal;
use text::line::Line;
use text::pen::Pen;

// The text has no more lines: five, and one for each of at most 80 times 80 pairs.
const MOST_LINES: usize = 6_405;

// A line of six that nothing bars.
fn made(six: &Six, k: usize) -> Result<Line<256>, Refusal>
    requires { six_barred (components_of six.now) ≡ 0 }
    ensures { lined_in result ≡ line_at (components_of six.now) k }
{
    let mut bytes = [0; 256];
    let mut pen = Pen::new(&mut bytes);
    match line::put_line(six, k, &mut pen) {
        Step::Put(len) => Ok(Line { bytes, len }),
        Step::Spoilt => Err(Refusal::CellOutside),
        Step::Past => Ok(Line::empty()),
    }
}

// The k-th line, from 0 on, without its line feed, and an empty one past the last; or a refusal.
pub fn line_at(six: &Six, k: usize) -> Result<Line<256>, Refusal>
    ensures { lined_in result ≡ line_at (components_of six.now) k }
{
    six.barred()?;
    made(six, k)
}

// The k-th line put into bytes of its own, which says how long it is.
fn line_length(six: &Six, k: usize) -> Step
    requires { six_barred (components_of six.now) ≡ 0 }
    ensures { Counted (components_of six.now) k result }
{
    let mut scratch = [0; 256];
    let mut pen = Pen::new(&mut scratch);
    line::put_line(six, k, &mut pen)
}

// How long the text of six that nothing bars is: each line with its line feed; or 15.
fn added(six: &Six) -> Result<usize, Refusal>
    requires { six_barred (components_of six.now) ≡ 0 }
    ensures { wrote_in result ≡ measured (components_of six.now) }
{
    let mut length = 0;
    for k in 0..MOST_LINES {
        match line_length(six, k) {
            Step::Put(n) => length += n + 1,
            Step::Spoilt => return Err(Refusal::CellOutside),
            Step::Past => break,
        }
    }
    Ok(length)
}

// How long the text is, or a refusal before 19.
fn measure(six: &Six) -> Result<usize, Refusal>
    ensures { wrote_in result ≡ measured (components_of six.now) }
{
    six.barred()?;
    added(six)
}

// Every line with its line feed.
fn put_lines(six: &Six, pen: &mut Pen)
    requires { text_number (components_of six.now) ≡ 0 }
    ensures { Puts (proteus_text (components_of six.now)) pen.old pen.new }
{
    for k in 0..MOST_LINES {
        let Step::Put(_) = line::put_line(six, k, pen) else {
            return;
        };
        pen.byte(b'\n');
    }
}

// The whole text into lent bytes: how many it takes. Where it is refused they stay as they were.
pub fn write(six: &Six, out: &mut [u8]) -> Result<usize, Refusal>
    ensures { outcome (wrote_in result) out.new ≡ written (components_of six.now) out.old }
{
    let length = measure(six)?;
    if out.len() < length {
        return Err(Refusal::ShortRoom);
    }
    put_lines(six, &mut Pen::new(out));
    Ok(length)
}
