// The three words that the program is started with.
use row::reading::Choices;
use std::env::Env;
use streams::words;

// Stands for a word that is not one of those asked; no choice is this number, so opening refuses it.
const UNKNOWN: u8 = 255;

fn kind(word: &[u8]) -> u8 {
    match word {
        b"difference" => 0,
        b"sum" => 1,
        _ => UNKNOWN,
    }
}

fn coverage(word: &[u8]) -> u8 {
    match word {
        b"single" => 0,
        b"full" => 1,
        _ => UNKNOWN,
    }
}

// One digit, 1 to 6.
fn component(word: &[u8]) -> u8 {
    match word {
        [digit @ b'1'..=b'6'] => *digit - b'0',
        _ => UNKNOWN,
    }
}

// The choices of the program's words; unknown ones where a word is missing or one too many.
pub(crate) fn choices(rt: &impl Env) -> Choices {
    if words::count(rt, 5) != 4 {
        return Choices {
            kind: UNKNOWN,
            component: UNKNOWN,
            coverage: UNKNOWN,
        };
    }
    let mut first = [0u8; 16];
    let mut second = [0u8; 16];
    let mut third = [0u8; 16];
    let a = words::argument(rt, 1, &mut first);
    let b = words::argument(rt, 2, &mut second);
    let c = words::argument(rt, 3, &mut third);
    Choices {
        kind: kind(&first[..a]),
        component: component(&second[..b]),
        coverage: coverage(&third[..c]),
    }
}
