// The words that the program is started with.
ghost use Rattle.std.specs.Prelude.{◌≡◌};
ghost use Rattle.script.specs.Place.{number_at, natural_of, word_of, signed_of};
ghost use Rattle.explainer.specs.Words.{kind_of, component_of, coverage_of, line_claim, pair_claim, stated_of, asked_of};

use grid::nodes::{Node, Pair};
use reader::reader::Place;
use reasons::explanation::Stated;
use row::reading::Choices;
use script::numbers::Numbers;
use script::words;
use std::env::Env;
use text::pen::Pen;

// One word more than any question has: the program's name, three choices, a number and a place of four.
const MOST_WORDS: usize = 10;

const KINDS: [(&[u8], Option<u8>); 2] = [(b"difference", Some(0)), (b"sum", Some(1))];

const COMPONENTS: [(&[u8], Option<u8>); 6] = [
    (b"1", Some(1)),
    (b"2", Some(2)),
    (b"3", Some(3)),
    (b"4", Some(4)),
    (b"5", Some(5)),
    (b"6", Some(6)),
];

const COVERAGES: [(&[u8], Option<u8>); 2] = [(b"single", Some(0)), (b"full", Some(1))];

// What is asked: the table's choices, and the refusal that is to be explained.
#[derive(Clone, Copy)]
pub(crate) struct Question {
    pub choices: Choices,
    pub stated: Stated,
}

fn kind_of(word: &[u8]) -> Option<u8>
    ensures { result ≡ kind_of word.now }
{
    words::named(word, &KINDS, None)
}

fn component_of(word: &[u8]) -> Option<u8>
    ensures { result ≡ component_of word.now }
{
    words::named(word, &COMPONENTS, None)
}

fn coverage_of(word: &[u8]) -> Option<u8>
    ensures { result ≡ coverage_of word.now }
{
    words::named(word, &COVERAGES, None)
}

// A refusal whose place is one number.
#[tactic(auto, unfolding(crate::specs::Words::line_claim))]
fn line_claim(number: u8, n: &Numbers) -> Option<Stated>
    ensures { result ≡ line_claim number (word_of (natural_of (number_at n.now 1))) }
{
    let place = match n.word_at(1)? {
        0 => Place::Nowhere,
        line => Place::Line(line),
    };
    Some(Stated { number, place })
}

// One whose place is a pair.
#[tactic(auto, unfolding(crate::specs::Words::pair_claim))]
fn pair_claim(number: u8, n: &Numbers) -> Option<Stated>
    ensures { result ≡ pair_claim number (word_of (natural_of (number_at n.now 1))) (signed_of (number_at n.now 2)) (word_of (natural_of (number_at n.now 3))) (signed_of (number_at n.now 4)) }
{
    let first = Node {
        tick: n.word_at(1)?,
        heading: n.signed_at(2)?,
    };
    let second = Node {
        tick: n.word_at(3)?,
        heading: n.signed_at(4)?,
    };
    let place = Place::Pair(Pair { first, second });
    Some(Stated { number, place })
}

// The number, and behind it four numbers for 11, and one for any other.
#[tactic(auto, unfolding(crate::specs::Words::stated_of, crate::specs::Words::claim_of))]
fn stated_of(n: &Numbers) -> Option<Stated>
    ensures { result ≡ stated_of n.now }
{
    let number = n.byte_at(0)?;
    if number == 11 && n.count == 5 {
        return pair_claim(number, n);
    }
    if number != 11 && n.count == 2 {
        return line_claim(number, n);
    }
    None
}

// The three words of the choices, and the numbers behind them.
#[tactic(auto, unfolding(crate::specs::Words::asked_of))]
fn asked_of(kind: &[u8], component: &[u8], coverage: &[u8], n: &Numbers) -> Option<Question>
    ensures { result ≡ asked_of (kind_of kind.now) (component_of component.now) (coverage_of coverage.now) (stated_of n.now) }
{
    let choices = Choices {
        kind: kind_of(kind)?,
        component: component_of(component)?,
        coverage: coverage_of(coverage)?,
    };
    let stated = stated_of(n)?;
    Some(Question { choices, stated })
}

// A space and one of the program's words; one that is missing, or longer than any that is asked for, is a word of no bytes.
fn put_argument(rt: &impl Env, pen: &mut Pen, i: usize) {
    let mut word = [0u8; 24];
    let n = streams::words::argument(rt, i, &mut word);
    pen.next_word(&word[..n]);
}

// The numbers that the words from the fourth on are.
fn numbers_of(rt: &impl Env, count: usize) -> Numbers {
    let mut line = [0u8; 160];
    let mut pen = Pen::new(&mut line);
    for i in 4..count {
        put_argument(rt, &mut pen, i);
    }
    words::numbers_in(pen.text().get(1..).unwrap_or(&[]))
}

// What the program's words ask. A word that holds a space is no number, although a line takes it for two.
pub(crate) fn read(rt: &impl Env) -> Option<Question> {
    let count = streams::words::count(rt, MOST_WORDS);
    if count < 6 {
        return None;
    }
    let n = numbers_of(rt, count);
    if n.count != count - 4 {
        return None;
    }
    let mut first = [0u8; 16];
    let mut second = [0u8; 16];
    let mut third = [0u8; 16];
    let a = streams::words::argument(rt, 1, &mut first);
    let b = streams::words::argument(rt, 2, &mut second);
    let c = streams::words::argument(rt, 3, &mut third);
    asked_of(&first[..a], &second[..b], &third[..c], &n)
}
