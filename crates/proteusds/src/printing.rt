// What the program prints: the lines of the ProteusDS text, a refusal, or how it is called.
ghost use Rattle.std.specs.Prelude.{◌≡◌, [], ◌∷◌, length};
ghost use Rattle.field.specs.Text.{bytes};
ghost use Rattle.text.specs.Decimal.{natural};
ghost use Rattle.text.specs.Spaced.{spaced};
ghost use Rattle.text.specs.Pen.{Puts};
ghost use Rattle.hull.specs.Six.{components_with};
ghost use Rattle.lines.specs.Refusal.{refusal_text};
ghost use Rattle.proteus.specs.Answer.{lined_in, line_at};
ghost use Rattle.proteusds.specs.Six.{parts_of};

use crate::six;
use lines::refusal;
use reader::reader::{Answer, Place};
use reader::record::Record;
use refusals::refusal::Refusal;
use streams::output;
use text::line::Line;
use text::pen::Pen;

// `refused`, the number and the place.
pub(crate) fn refused(rt: &(impl Print + Eprint), number: u8, place: Place) {
    let mut line = [0u8; 100];
    let mut pen = Pen::new(&mut line);
    refusal::put(&mut pen, number, place);
    output::put_line(rt, &mut pen);
}

// `component`, which one, and a refusal.
fn put_component(pen: &mut Pen, component: u8, number: u8, place: Place)
    ensures { Puts (spaced (bytes "component" ∷ natural component ∷ refusal_text number place ∷ [])) pen.old pen.new }
{
    pen.word(b"component");
    pen.next_natural(u64::from(component));
    pen.byte(b' ');
    refusal::put(pen, number, place);
}

// The refusal of a component. Any other answer prints nothing.
pub(crate) fn component_refused(rt: &(impl Print + Eprint), component: u8, a: Answer) {
    if let Answer::Refused(number, place) = a {
        let mut line = [0u8; 100];
        let mut pen = Pen::new(&mut line);
        put_component(&mut pen, component, number, place);
        output::put_line(rt, &mut pen);
    }
}

// A line with its line feed, for which there is a byte more.
fn put_text(rt: &(impl Print + Eprint), line: Line<256>) -> bool {
    let mut bytes = [0u8; 257];
    let mut pen = Pen::new(&mut bytes);
    pen.word(line.text());
    output::put_line(rt, &mut pen)
}

// The writer's k-th line of the six, each with its own cells.
fn line_at(readers: &[Record; 6], cells: &[i32], k: usize) -> Result<Line<256>, Refusal>
    requires { length cells.now ≡ 76_800 }
    ensures { lined_in result ≡ line_at (components_with readers.now (parts_of cells.now)) k }
{
    proteus::output::line_at(&six::tables(readers, cells), k)
}

// The lines of the text, until an empty one or one that cannot be written; or the number that bars the six, which shows at the first line.
pub(crate) fn text(rt: &(impl Print + Eprint), readers: [Record; 6], cells: &[i32])
    requires { length cells.now ≡ 76_800 }
{
    for k in 0..usize::MAX {
        match line_at(&readers, cells, k) {
            Err(refusal) => return refused(rt, refusal.number(), Place::Nowhere),
            Ok(line) => {
                if line.len == 0 || !put_text(rt, line) {
                    return;
                }
            }
        }
    }
}

// How the program is called, on standard error.
pub(crate) fn usage(rt: &impl Eprint) {
    output::say(
        rt,
        "proteusds reads a text of second-order difference loads of all six components as WAMIT prints it, and writes it as ProteusDS reads it.\n",
    );
    output::say(rt, "    proteusds COVERAGE < text\n");
    output::say(rt, "COVERAGE is single or full.\n");
    output::say(
        rt,
        "It prints the text, or `refused`, a number (docs/NUMBERS.md) and a place; where one component is refused, `component` and which stand before that.\n",
    );
}
