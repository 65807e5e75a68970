// The fields of a line, between spaces or tabs, by the column in which each stands.
ghost use Rattle.std.specs.Prelude.{◌≡◌, false, ◌∷◌, ◌≤◌, ◌<◌, min, length, drop, get_or};
ghost use Rattle.std.proofs.Math.Seq.{slice};
ghost use Rattle.field.specs.Form.{field_of};
ghost use Rattle.row.specs.Line.{is_blank, without_return, words, starts_letter};
ghost use Rattle.row.specs.Layout.{column_of};
ghost use Rattle.row.specs.own.Found.{Spans, first_nine};
ghost use Rattle.row.specs.own.Values.{component_of};

use field::decimal::Decimal;

// Where a field stands in its line: from a start up to an end.
#[derive(Clone, Copy)]
pub struct Span {
    pub start: usize,
    pub end: usize,
}

// A line with the first nine of its fields, and how many it has; ten stands for more. A span that no field takes is empty. The columns are lent to whoever
// asks for a field: by value all nine spans were copied each time.
#[derive(Clone, Copy)]
pub struct Columns<'a> {
    pub line: &'a [u8],
    pub count: usize,
    pub spans: [Span; 9],
    ghost counted: { count ≡ min (length (words line.now)) 10 },
    ghost spanned: { Spans line.now spans },
}

impl<'a> Columns<'a> {
    // The bytes of the field in a column; past the ninth there are none.
    fn word(&self, k: usize) -> &'a [u8]
        ensures { result.now ≡ column_of (first_nine self.now.line.now) k }
    {
        match self.spans.get(k) {
            Some(span) => &self.line[span.start..span.end],
            None => &[],
        }
    }

    // The decimal in a column; none where the field has the wrong form, or there is no field.
    pub fn decimal(&self, k: usize) -> Option<Decimal>
        ensures { result ≡ field_of (column_of (first_nine self.now.line.now) k) }
    {
        let span = self.spans.get(k)?;
        field::form::read(self.line, span.start, span.end)
    }

    // The component in a column: a single byte, 1 to 6.
    pub fn component(&self, k: usize) -> Option<u8>
        ensures { result ≡ component_of (column_of (first_nine self.now.line.now) k) }
    {
        match self.word(k) {
            [b] if b'1' <= *b && *b <= b'6' => Some(*b - b'0'),
            _ => None,
        }
    }

    // Whether the first field starts with a letter, as a title does.
    pub(crate) fn starts_with_letter(&self) -> bool
        ensures { result ≡ starts_letter (words self.now.line.now) }
    {
        match self.word(0) {
            [b, ..] => b.is_ascii_alphabetic(),
            [] => false,
        }
    }
}

// Most bytes are neither, and are past both: one test tells those.
fn is_blank(b: u8) -> bool
    ensures { result ≡ is_blank b }
{
    b <= b' ' && matches!(b, b' ' | b'\t')
}

// From a place on, the first byte that is no blank, or the end: the words that are left stay the same.
fn past_blanks(line: &[u8], at: usize) -> usize
    requires { at ≤ length line.now }
    ensures within { (at ≤ result) × (result ≤ length line.now) }
    ensures same { words (drop result line.now) ≡ words (drop at line.now) }
    ensures stops { result < length line.now → is_blank (get_or line.now result 0) ≡ false }
{
    for i in at..line.len() {
        if !is_blank(line[i]) {
            return i;
        }
    }
    line.len()
}

// From a byte that is no blank, the end of its word: the first word that is left.
fn past_word(line: &[u8], at: usize) -> usize
    requires { (at < length line.now) × (is_blank (get_or line.now at 0) ≡ false) }
    ensures within { (at < result) × (result ≤ length line.now) }
    ensures first { words (drop at line.now) ≡ slice at result line.now ∷ words (drop result line.now) }
{
    for i in at + 1..line.len() {
        if is_blank(line[i]) {
            return i;
        }
    }
    line.len()
}

// The columns of a line with no carriage return at its end.
pub(crate) fn find(line: &[u8]) -> Columns<'_>
    ensures { result.line.now ≡ line.now }
{
    let mut spans = [Span { start: 0, end: 0 }; 9];
    let mut at = past_blanks(line, 0);
    for count in 0..9 {
        if at == line.len() {
            return Columns { line, count, spans };
        }
        let end = past_word(line, at);
        spans[count] = Span { start: at, end };
        at = past_blanks(line, end);
    }
    let count = if at < line.len() { 10 } else { 9 };
    Columns { line, count, spans }
}

// A line with no carriage return at its end.
pub(crate) fn bare(line: &[u8]) -> &[u8]
    ensures { result.now ≡ without_return line.now }
{
    match line {
        [rest @ .., b'\r'] => rest,
        _ => line,
    }
}

// The columns of a line, before its line feed.
pub fn of_line(line: &[u8]) -> Columns<'_>
    ensures { result.line.now ≡ without_return line.now }
{
    find(bare(line))
}
