// Standard output and standard error, a text at a time.
ghost use Rattle.std.specs.Prelude.{IsTrue, ◌≤◌, [], ◌∷◌, length};
ghost use Rattle.text.specs.Pen.{Puts};

use crate::failing;
use std::io;
use text::pen::Pen;

fn put_all(rt: &(impl Print + Eprint), bytes: &[u8]) -> bool {
    match rt.write_all(bytes) {
        Ok(()) => true,
        Err(e) => {
            failing::fail(rt, "standard output", e);
            false
        }
    }
}

// The first `len` bytes, on standard output; false where it did not take them, or there are fewer, which is said on standard error.
pub fn put(rt: &(impl Print + Eprint), bytes: &[u8], len: usize) -> bool
    ensures { IsTrue result → len ≤ length bytes.now }
{
    if len <= bytes.len() {
        return put_all(rt, &bytes[..len]);
    }
    failing::fail(
        rt,
        "standard output",
        io::Error::from(io::ErrorKind::InvalidInput),
    );
    false
}

// What a pen has put and a line feed, by one write; false where standard output did not take them, which is said on standard error.
pub fn put_line(rt: &(impl Print + Eprint), pen: &mut Pen) -> bool
    ensures { Puts (10 ∷ []) pen.old pen.new }
{
    pen.byte(b'\n');
    put_all(rt, pen.text())
}

// A text on standard error. Where that fails too there is nowhere left to say so.
pub fn say(rt: &impl Eprint, text: &str) {
    let _ = rt.eprint(text);
}
