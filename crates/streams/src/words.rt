// The words that a program is started with. Word 0 is the program's own name.
ghost use Rattle.std.specs.Prelude.{◌≤◌, length};

use std::env::{Env, FillError};

// Word i, at the front of a buffer; how long it is, and 0 where it is missing or the buffer does not hold it.
pub fn argument(rt: &impl Env, i: usize, word: &mut [u8]) -> usize
    ensures { result ≤ length word.new }
{
    rt.arg(i, word).unwrap_or(0)
}

// Whether word i is there.
fn is_there(rt: &impl Env, i: usize) -> bool {
    let mut letter = [0u8; 1];
    matches!(rt.arg(i, &mut letter), Ok(_) | Err(FillError::TooLong))
}

// How many words there are, the program's own name among them; `most` where there are as many or more.
pub fn count(rt: &impl Env, most: usize) -> usize
    ensures { result ≤ most }
{
    for n in 0..most {
        if !is_there(rt, n) {
            return n;
        }
    }
    most
}
