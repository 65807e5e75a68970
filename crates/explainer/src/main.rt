// The program for the mate: `explain difference 1 single 9 4 < file` says which lines of a WAMIT file stand behind its refusal. Document 02, M-103.
#![tactic(auto)]

mod printing;
mod words;

use explain::explainer::Explainer;
use origins::memory;
use reader::reader::Answer;
use streams::input;
use streams::input::Taker;
use table::cells;

// The explainer, which takes the text.
#[derive(Drop)]
struct Explaining<'a> {
    explainer: Explainer,
    cells: &'a mut [i32],
    flags: &'a mut [u8],
    lines: &'a mut [u32],
}

impl<'a> Taker for Explaining<'a> {
    fn take(&mut self, piece: &[u8]) -> bool {
        let step = self
            .explainer
            .piece(piece, self.cells, self.flags, self.lines);
        self.explainer = step.explainer;
        matches!(step.answer, Answer::Going)
    }
}

fn main(rt: HostRuntime) {
    let Some(question) = words::read(&rt) else {
        printing::usage(&rt);
        return;
    };
    let mut cells = [0i32; cells::CELLS];
    let mut flags = [0u8; cells::FLAGS];
    let mut lines = [0u32; memory::LINES];
    let choices = question.choices;
    let opened = Explainer::open(
        choices.kind,
        choices.component,
        choices.coverage,
        question.stated,
        &mut cells,
        &mut flags,
        &mut lines,
    );
    let mut explaining = Explaining {
        explainer: opened.explainer,
        cells: &mut cells,
        flags: &mut flags,
        lines: &mut lines,
    };
    let mut buffer = [0u8; 65_536];
    let readable = input::each_piece(&rt, &mut buffer, &mut explaining);
    let explainer = explaining.explainer;
    if readable {
        printing::told(&rt, explainer.close(&mut cells, &mut flags, &mut lines));
    }
}
