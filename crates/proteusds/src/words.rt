// The one word that the program is started with.
ghost use Rattle.std.specs.Prelude.{◌≡◌};
ghost use Rattle.proteusds.specs.Words.{coverage_of};

use std::env::Env;
use streams::words;

#[tactic(auto, unfolding(crate::specs::Words::coverage_of, field::specs::Text::bytes))]
fn named(word: &[u8]) -> Option<u8>
    ensures { result ≡ coverage_of word.now }
{
    if word == b"single".as_slice() {
        Some(0)
    } else if word == b"full".as_slice() {
        Some(1)
    } else {
        None
    }
}

// The coverage as opening takes it; none where the word is missing, or where there is one too many.
pub(crate) fn chosen(rt: &impl Env) -> Option<u8> {
    if words::count(rt, 3) != 2 {
        return None;
    }
    let mut word = [0u8; 16];
    let n = words::argument(rt, 1, &mut word);
    named(&word[..n])
}
