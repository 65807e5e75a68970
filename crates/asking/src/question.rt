// What `explain` is asked: the table's choices, a refusal, and how many bytes the text behind the command has.
ghost use Rattle.std.specs.Prelude.{◌≡◌};
ghost use Rattle.script.specs.Place.{number_at, natural_of, word_of, byte_of, signed_of};
ghost use Rattle.asking.specs.Explaining.{chosen_of, paired_of, only_first, stated_as, claim_of, question_of};

use grid::nodes::{Node, Pair};
use reader::reader::Place;
use reasons::explanation::Stated;
use row::reading::Choices;
use script::numbers::Numbers;

// The table's choices, the refusal that is stated, and how many bytes the text has.
#[derive(Clone, Copy)]
pub struct Question {
    pub choices: Choices,
    pub stated: Stated,
    pub bytes: u64,
}

// The numbers at three places as a table's choices.
#[tactic(auto, unfolding(crate::specs::Explaining::chosen_of))]
pub fn chosen_in(n: &Numbers, i: usize, j: usize, k: usize) -> Option<Choices>
    ensures { result ≡ chosen_of (byte_of (natural_of (number_at n.now i))) (byte_of (natural_of (number_at n.now j))) (byte_of (natural_of (number_at n.now k))) }
{
    let kind = n.byte_at(i)?;
    let component = n.byte_at(j)?;
    let coverage = n.byte_at(k)?;
    Some(Choices {
        kind,
        component,
        coverage,
    })
}

#[tactic(auto, unfolding(crate::specs::Explaining::paired_of))]
fn paired_in(n: &Numbers) -> Option<Pair>
    ensures { result ≡ paired_of (word_of (natural_of (number_at n.now 5))) (signed_of (number_at n.now 6)) (word_of (natural_of (number_at n.now 7))) (signed_of (number_at n.now 8)) }
{
    let first = Node {
        tick: n.word_at(5)?,
        heading: n.signed_at(6)?,
    };
    let second = Node {
        tick: n.word_at(7)?,
        heading: n.signed_at(8)?,
    };
    Some(Pair { first, second })
}

// Whether all but the first number are 0.
#[tactic(auto, unfolding(crate::specs::Explaining::only_first))]
fn only_first(p: Pair) -> bool
    ensures { result ≡ only_first p }
{
    p.first.heading == 0 && p.second.tick == 0 && p.second.heading == 0
}

// A refusal and its place: the pair for 11, and a line or none for any other.
#[tactic(auto, unfolding(crate::specs::Explaining::stated_as))]
fn stated_as(number: u8, p: Pair) -> Option<Stated>
    ensures { result ≡ stated_as number p }
{
    if number == 11 {
        let place = Place::Pair(p);
        return Some(Stated { number, place });
    }
    if !only_first(p) {
        return None;
    }
    let place = match p.first.tick {
        0 => Place::Nowhere,
        line => Place::Line(line),
    };
    Some(Stated { number, place })
}

#[tactic(auto, unfolding(crate::specs::Explaining::claim_of))]
fn claim_in(n: &Numbers) -> Option<Stated>
    ensures { result ≡ claim_of (byte_of (natural_of (number_at n.now 4))) (paired_of (word_of (natural_of (number_at n.now 5))) (signed_of (number_at n.now 6)) (word_of (natural_of (number_at n.now 7))) (signed_of (number_at n.now 8))) }
{
    let number = n.byte_at(4)?;
    stated_as(number, paired_in(n)?)
}

// WAY is 0, nine columns; a command with other numbers is none.
#[tactic(auto, unfolding(crate::specs::Explaining::asking, crate::specs::Explaining::question_of))]
pub fn question_in(n: &Numbers) -> Option<Question>
    ensures { result ≡ question_of n.now }
{
    let way = n.first_among(10)?;
    let choices = chosen_in(n, 1, 2, 3)?;
    let stated = claim_in(n)?;
    let bytes = n.natural_at(9)?;
    if way != 0 {
        return None;
    }
    Some(Question {
        choices,
        stated,
        bytes,
    })
}
