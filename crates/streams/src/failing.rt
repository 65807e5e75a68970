// A stream that failed, said on standard error: what failed, a colon and the system's reason.
use std::io::Write;
use std::{io, str};

// The reason alone: std puts the error's number behind it, as in `Is a directory (os error 21)`.
fn reason(text: &[u8]) -> &str {
    let Ok(whole) = str::from_utf8(text) else {
        return "";
    };
    match whole.split_once(" (os error ") {
        Some((head, _)) => head,
        None => whole,
    }
}

// An error as std prints it, at the front of the buffer; how many bytes it takes.
fn put_error(e: io::Error, text: &mut [u8]) -> usize {
    let len = text.len();
    let mut free: &mut [u8] = text;
    let _ = write!(free, "{e}");
    len.saturating_sub(free.len())
}

pub(crate) fn fail(rt: &impl Eprint, stream: &str, e: io::Error) {
    let mut text = [0u8; 160];
    let n = put_error(e, &mut text);
    let why = reason(&text[..n.min(160)]);
    let _ = eprintln!(rt; "{stream}: {why}");
}
