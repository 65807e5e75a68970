// A command line: words with one space between them. The first names the command, and the others are numbers; of `forge` the second names a part.
ghost use Rattle.std.specs.Prelude.{◌≡◌, ◌==◌, ◌≤◌, length, drop};
ghost use Rattle.std.specs.List.{position};
ghost use Rattle.script.specs.Line.{words_of};
ghost use Rattle.script.specs.Number.{numbers_of};
ghost use Rattle.script.specs.Command.{verb_of, part_of, plain_of, forge_of, command_of};
ghost use Rattle.script.specs.own.Behind.{word_end, behind};
ghost use Rattle.script.specs.own.Tabled.{tabled};

use crate::numbers;
use crate::numbers::Numbers;

#[derive(Clone, Copy, PartialEq, Eq, Debug)]
pub enum Verb {
    Lend,
    Open,
    Piece,
    Close,
    Listing,
    Proteus,
    Explain,
    Coefficient,
    Sea,
    Force,
    Display,
    Keep,
    Cell,
    Poke,
    Spill,
    Forge,
    Record,
    Sum,
    Unknown,
}

// A part of the record.
#[derive(Clone, Copy, PartialEq, Eq, Debug)]
pub enum Part {
    Stage,
    Kind,
    Component,
    Coverage,
    Lines,
    Headings,
    Kept,
    Tick,
    Heading,
    Byte,
    Unknown,
}

#[derive(Clone, Copy)]
pub struct Command {
    pub verb: Verb,
    pub part: Part,
    pub numbers: Numbers,
}

// What is lent, and a table's calls and texts; the bench's own memory, and the places where it is kept; the sea, and what is asked of it and of a table.
const VERBS: [(&[u8], Verb); 18] = [
    (b"lend", Verb::Lend),
    (b"open", Verb::Open),
    (b"piece", Verb::Piece),
    (b"close", Verb::Close),
    (b"listing", Verb::Listing),
    (b"proteus", Verb::Proteus),
    (b"explain", Verb::Explain),
    (b"keep", Verb::Keep),
    (b"cell", Verb::Cell),
    (b"poke", Verb::Poke),
    (b"spill", Verb::Spill),
    (b"forge", Verb::Forge),
    (b"record", Verb::Record),
    (b"sum", Verb::Sum),
    (b"coefficient", Verb::Coefficient),
    (b"sea", Verb::Sea),
    (b"force", Verb::Force),
    (b"display", Verb::Display),
];

// The record's numbers, and its lists.
const PARTS: [(&[u8], Part); 10] = [
    (b"stage", Part::Stage),
    (b"kind", Part::Kind),
    (b"component", Part::Component),
    (b"coverage", Part::Coverage),
    (b"lines", Part::Lines),
    (b"headings", Part::Headings),
    (b"kept", Part::Kept),
    (b"tick", Part::Tick),
    (b"heading", Part::Heading),
    (b"byte", Part::Byte),
];

// What stands beside a word in a table, or something else where it stands there not.
pub fn named<A: Copy>(word: &[u8], table: &[(&[u8], A)], other: A) -> A
    ensures { result ≡ tabled word.now table.now other }
{
    for (name, meaning) in table {
        if word == *name {
            return *meaning;
        }
    }
    other
}

fn verb_of(word: &[u8]) -> Verb
    ensures { result ≡ verb_of word.now }
{
    named(word, &VERBS, Verb::Unknown)
}

fn part_of(word: &[u8]) -> Part
    ensures { result ≡ part_of word.now }
{
    named(word, &PARTS, Part::Unknown)
}

// Where the first space stands.
fn space_in(line: &[u8]) -> Option<usize>
    ensures { result ≡ position (λ b. b == 32) line.now }
{
    line.iter().position(|b| *b == b' ')
}

// How many bytes the first word of a line has.
fn word_end(line: &[u8]) -> usize
    ensures value { result ≡ word_end line.now }
    ensures within { result ≤ length line.now }
{
    line.iter().position(|b| *b == b' ').unwrap_or(line.len())
}

// The numbers that the words behind the first one are, which ends at `end`.
fn numbers_behind(line: &[u8], end: usize) -> Numbers
    ensures { result ≡ numbers_of (behind (drop end line.now)) }
{
    if line.len() <= end {
        return Numbers::none();
    }
    numbers_in(&line[end + 1..])
}

// What stands behind `forge`: a part, and numbers.
fn forge_in(line: &[u8]) -> Command
    ensures { result ≡ forge_of (words_of line.now) }
{
    let end = word_end(line);
    Command {
        verb: Verb::Forge,
        part: part_of(&line[..end]),
        numbers: numbers_behind(line, end),
    }
}

// The command that a line is.
pub fn command_in(line: &[u8]) -> Command
    ensures { result ≡ command_of line.now }
{
    let end = word_end(line);
    let name = &line[..end];
    if end < line.len() && name == b"forge".as_slice() {
        return forge_in(&line[end + 1..]);
    }
    Command {
        verb: verb_of(name),
        part: Part::Unknown,
        numbers: numbers_behind(line, end),
    }
}

// A line of nothing but numbers, as a sea has them. They are put where they lie: a fold over the words would hand on a copy of all of them at each.
pub fn numbers_in(line: &[u8]) -> Numbers
    ensures { result ≡ numbers_of (words_of line.now) }
{
    let mut all = Numbers::none();
    let mut rest = line;
    while let Some(end) = space_in(rest) {
        let (word, behind) = rest.split_at(end);
        all.add(numbers::read(word));
        rest = &behind[1..];
    }
    all.add(numbers::read(rest));
    all
}
