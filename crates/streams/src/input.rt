// Standard input, a read at a time.
ghost use Rattle.std.specs.Prelude.{◌≡◌, ◌≤◌, length, IfSome};

use crate::failing;
use std::io::Read;

// One read into the front of a buffer: how many bytes came, 0 at the end of the input. A read that fails is none, and is said on standard error.
pub fn read(rt: &(impl Input + Eprint), buffer: &mut [u8]) -> Option<usize>
    ensures { IfSome result (λ n. n ≤ length buffer.new) }
{
    let mut reader = rt.reader();
    match reader.read(buffer) {
        Ok(n) => Some(n),
        Err(e) => {
            failing::fail(rt, "standard input", e);
            None
        }
    }
}

// Who takes the pieces of a text. A trait and no closure: of a closure it would have to be asked that it may be called.
pub trait Taker {
    // A piece, and whether more is wanted.
    fn take(&mut self, piece: &[u8]) -> bool;
}

// Standard input, read into the lent buffer and handed on piece by piece, to its end or until no more is wanted; false where it could not be read, which is said on
// standard error. No contract can speak of what a read brings: of the buffer it says that its length stays.
// A proved loop has to end, and nothing says that the input does: so the turns are counted, to a number that no run comes to.
pub fn each_piece<T: Taker>(rt: &(impl Input + Eprint), buffer: &mut [u8], taker: &mut T) -> bool
    ensures { length buffer.new ≡ length buffer.old }
{
    for _ in 0..u64::MAX {
        let Some(n) = read(rt, buffer) else {
            return false;
        };
        if n == 0 || !taker.take(&buffer[..n]) {
            return true;
        }
    }
    true
}
