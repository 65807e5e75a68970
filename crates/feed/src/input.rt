// Standard input, through a buffer that the caller lends. No contract can speak of what a read brings: of the calls that read, the contracts say only that the
// buffer keeps its length, and the others say all.
ghost use Rattle.std.specs.Prelude.{◌≡◌, ◌≤◌, length};
ghost use Rattle.feed.specs.Held.{bytes_of, unread, held_in, past_bytes, next_bytes, feed_behind};

use std::io::Input as StandardInput;

// Whether more can be read, and if not, whether that is because a read failed.
#[derive(Clone, Copy, PartialEq, Eq, Debug)]
pub enum Flow {
    Open,
    Over,
    Failed,
}

// The bytes `at..end` of the buffer are read and not yet used.
#[derive(Clone, Copy)]
pub struct Input {
    pub at: usize,
    pub end: usize,
    pub flow: Flow,
}

// The bytes `from..to` of the buffer. A range of std's is no `Copy`.
#[derive(Clone, Copy)]
pub struct Span {
    pub from: usize,
    pub to: usize,
}

impl Span {
    // Those bytes; none where the buffer does not have them.
    pub fn of(self, buffer: &[u8]) -> &[u8]
        ensures { result.now ≡ bytes_of self buffer.now }
    {
        buffer.get(self.from..self.to).unwrap_or(&[])
    }
}

// A line, without its line feed, and what follows it; none where the input is at its end, or failed before the end of one.
#[derive(Clone, Copy)]
pub struct Line {
    pub text: Option<Span>,
    pub input: Input,
}

// What is read for: so many bytes, or the end of a line, before which a buffer may be full.
#[derive(Clone, Copy)]
pub enum Until {
    Bytes(usize),
    LineEnd,
}

impl Input {
    // Standard input before a byte of it is read.
    pub fn fresh() -> Input
        ensures { result ≡ unread }
    {
        Input {
            at: 0,
            end: 0,
            flow: Flow::Open,
        }
    }

    // How many bytes are read and not yet used.
    pub fn held(self) -> usize
        ensures { result ≡ held_in self }
    {
        self.end.saturating_sub(self.at)
    }

    // The input after n of its bytes, or after all of them where it has fewer.
    pub fn past(self, n: usize) -> Input
        ensures { result ≡ past_bytes self n }
    {
        Input {
            at: self.at.saturating_add(n).min(self.end),
            ..self
        }
    }

    // The next n bytes, where a buffer of `len` bytes has them.
    pub fn next_bytes(self, n: usize, len: usize) -> Span
        ensures value { result ≡ next_bytes self n len }
        ensures within { (result.from ≤ result.to) × (result.to ≤ len) }
    {
        if self.at <= len && n <= len - self.at {
            return Span {
                from: self.at,
                to: self.at + n,
            };
        }
        Span { from: 0, to: 0 }
    }

    // Whether the byte behind the next n is there, and is a line feed.
    pub fn feed_behind(self, n: usize, buffer: &[u8]) -> bool
        ensures { result ≡ feed_behind self n buffer.now }
    {
        n < self.held() && buffer.get(self.at + n).copied().unwrap_or(0) == b'\n'
    }

    // How many of the bytes that are there come before the first line feed; all of them where there is none.
    fn line_length(self, buffer: &[u8]) -> usize {
        let held = buffer.get(self.at..self.end).unwrap_or(&[]);
        held.iter().position(|b| *b == b'\n').unwrap_or(held.len())
    }

    // Whether what is read for is there, or no more can come.
    fn is_enough(self, buffer: &[u8], until: Until) -> bool {
        self.flow != Flow::Open
            || match until {
                Until::Bytes(n) => n <= self.held(),
                Until::LineEnd => {
                    buffer.len() <= self.held() || self.line_length(buffer) < self.held()
                }
            }
    }
}

// The bytes that are held, moved to the buffer's front, unless they lie there: a long text may come in many small reads. How many they are.
fn to_front(i: Input, buffer: &mut [u8]) -> usize {
    let end = i.end.min(buffer.len());
    let at = i.at.min(end);
    if 0 < at {
        buffer.copy_within(at..end, 0);
    }
    end - at
}

// One read, behind the first n bytes; none where it failed, which is said on standard error.
fn read_behind(rt: &(impl StandardInput + Eprint), buffer: &mut [u8], n: usize) -> Option<usize> {
    if n < buffer.len() {
        streams::input::read(rt, &mut buffer[n..])
    } else {
        Some(0)
    }
}

// One read more. The used bytes of the buffer are given up; the end of the input, and a read that fails, end it.
fn more(rt: &(impl StandardInput + Eprint), i: Input, buffer: &mut [u8]) -> Input {
    let n = to_front(i, buffer);
    let (came, flow) = match read_behind(rt, buffer, n) {
        Some(0) => (0, Flow::Over),
        Some(came) => (came, Flow::Open),
        None => (0, Flow::Failed),
    };
    Input {
        at: 0,
        end: n.saturating_add(came),
        flow,
    }
}

// Reads until what is read for is there, or the input is over. A proved loop has to end, and nothing says that the input does: so the turns are counted, to a number that no run comes to.
pub fn gather(
    rt: &(impl StandardInput + Eprint),
    i: Input,
    buffer: &mut [u8],
    until: Until,
) -> Input
    ensures { length buffer.new ≡ length buffer.old }
{
    let mut on = i;
    for _ in 0..u64::MAX {
        if on.is_enough(buffer, until) {
            return on;
        }
        on = more(rt, on, buffer);
    }
    on
}

// A line of n bytes, before so many that end it; an empty one where its first bytes were passed over.
fn line_of(i: Input, n: usize, feed: usize, long: bool, len: usize) -> Line {
    let text = if long {
        Some(Span { from: 0, to: 0 })
    } else if n == 0 && feed == 0 {
        None
    } else {
        Some(i.next_bytes(n, len))
    };
    Line {
        text,
        input: i.past(n.saturating_add(feed)),
    }
}

// The next line. The end of the input ends a line too. A line that the buffer does not hold is passed over, and comes back empty.
pub fn next_line(rt: &(impl StandardInput + Eprint), i: Input, buffer: &mut [u8]) -> Line
    ensures { length buffer.new ≡ length buffer.old }
{
    let len = buffer.len();
    let mut on = i;
    let mut long = false;
    for _ in 0..u64::MAX {
        on = gather(rt, on, buffer, Until::LineEnd);
        let n = on.line_length(buffer);
        let have = on.held();
        if n < have {
            return line_of(on, n, 1, long, len);
        }
        match on.flow {
            Flow::Failed => {
                return Line {
                    text: None,
                    input: on,
                };
            }
            Flow::Over => return line_of(on, have, 0, long, len),
            Flow::Open => {}
        }
        on = on.past(have);
        long = true;
    }
    line_of(on, 0, 0, true, len)
}
