// A line of text in bytes of its own.
ghost use Rattle.std.specs.Prelude.{◌≡◌, [], take};
ghost use Rattle.text.specs.Line.{line_of};

// The first `len` bytes are the text, and 0 stands behind them: an array with a count, since there is no heap.
#[derive(Clone, Copy)]
pub struct Line<const N: usize> {
    pub bytes: [u8; N],
    pub len: usize,
}

impl<const N: usize> Line<N> {
    #[tactic(auto, unfolding(crate::specs::Line::line_of))]
    pub fn empty() -> Line<N>
        ensures { result ≡ line_of N [] }
    {
        Line {
            bytes: [0; N],
            len: 0,
        }
    }

    pub fn text(&self) -> &[u8]
        ensures { result.now ≡ take self.now.len self.now.bytes }
    {
        &self.bytes[..self.len.min(N)]
    }
}
