// What the program prints: a refusal, the lines of the listing, or how it is called.
use lines::{listing, refusal};
use reader::reader::Answer;
use reader::record::Record;
use streams::output;
use text::line::Line;
use text::pen::Pen;

// A line with its line feed, by one write; false where standard output did not take them, which is said on standard error.
fn put_line(rt: &(impl Print + Eprint), line: Line<80>) -> bool {
    let mut bytes = [0u8; 80];
    let mut pen = Pen::new(&mut bytes);
    pen.word(line.text());
    output::put_line(rt, &mut pen)
}

// `refused`, the number and the place. Any other answer prints nothing.
pub(crate) fn refused(rt: &(impl Print + Eprint), a: Answer) {
    if let Answer::Refused(number, place) = a {
        put_line(rt, refusal::line(number, place));
    }
}

// The lines of the listing, until an empty one or one that cannot be written.
pub(crate) fn table(rt: &(impl Print + Eprint), r: Record, cells: &[i32]) {
    for k in 0..usize::MAX {
        let Ok(line) = listing::line_at(r, cells, k) else {
            return;
        };
        if line.len == 0 || !put_line(rt, line) {
            return;
        }
    }
}

// How the program is called, on standard error.
pub(crate) fn usage(rt: &impl Eprint) {
    output::say(
        rt,
        "listing reads a text of second-order loads as WAMIT prints it and lists its table.\n",
    );
    output::say(rt, "    listing KIND COMPONENT COVERAGE < text\n");
    output::say(
        rt,
        "KIND is difference or sum, COMPONENT is 1 to 6, COVERAGE is single or full.\n",
    );
    output::say(
        rt,
        "It prints the table, or `refused`, a number (docs/NUMBERS.md) and a place.\n",
    );
}
