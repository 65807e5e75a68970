// What the program prints: what explains a refusal, or how it is called.
use explain::explainer::Told;
use grid::nodes::Slots;
use lines::refusal;
use origins::memory::Origins;
use reader::reader::Place;
use reasons::explanation::Explanation;
use streams::output;
use telling::said;
use text::pen::Pen;
use wording::sentences;

// A line for each slot that a line brought, until one cannot be written.
fn slots(rt: &(impl Print + Eprint), s: Slots, o: Origins) {
    for k in 0..24 {
        let mut line = [0u8; 100];
        let mut pen = Pen::new(&mut line);
        sentences::put_slot(&mut pen, s, o, k);
        if 0 < pen.end() && !output::put_line(rt, &mut pen) {
            return;
        }
    }
}

// What closing told, and behind a refusal 8 the slots.
pub(crate) fn told(rt: &(impl Print + Eprint), t: Told) {
    let x = t.explainer;
    let mut line = [0u8; 300];
    let mut pen = Pen::new(&mut line);
    said::put_said(&mut pen, x.reader, t.given, t.explanation);
    if !output::put_line(rt, &mut pen) {
        return;
    }
    if let Explanation::Held = t.explanation {
        slots(rt, x.reader.slots, x.origins);
    }
}

// Wrong words: how the program is called, on standard error, and the refusal.
pub(crate) fn usage(rt: &(impl Print + Eprint)) {
    output::say(
        rt,
        "explain reads a text of second-order loads that was refused, as WAMIT prints it, and says which lines or which field the refusal comes from.\n",
    );
    output::say(
        rt,
        "    explain KIND COMPONENT COVERAGE NUMBER PLACE.. < text\n",
    );
    output::say(
        rt,
        "KIND is difference or sum, COMPONENT is 1 to 6, COVERAGE is single or full.\n",
    );
    output::say(
        rt,
        "NUMBER and PLACE.. are what listing printed behind `refused`: PLACE is a line or 0, and of 11 a tick, a heading, a tick and a heading.\n",
    );
    output::say(
        rt,
        "It prints what explains the refusal, or what the text gives where that is not the refusal that was stated.\n",
    );
    let mut line = [0u8; 100];
    let mut pen = Pen::new(&mut line);
    refusal::put(&mut pen, 2, Place::Nowhere);
    output::put_line(rt, &mut pen);
}
