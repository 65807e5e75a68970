// The listing's lines.
ghost use Rattle.std.specs.Prelude.{◌≡◌, cond, ◌∷◌, eqb};
ghost use Rattle.text.specs.Pen.{Puts};
ghost use Rattle.table.specs.Entries.{entry_at, complex_of};
ghost use Rattle.lines.specs.Line.{line_of};
ghost use Rattle.lines.specs.Listing.{title_text, pair_text, listed_in, listed};

use crate::writing;
use grid::nodes::Pair;
use grid::slots;
use reader::record::Record;
use reader::validity;
use refusals::refusal::Refusal;
use table::entries::Parts;
use table::{entries, pairs};
use text::line::Line;
use text::pen::Pen;

// A space and one of two words, the first where n is 0.
fn next_either(pen: &mut Pen, n: u8, first: &[u8], other: &[u8])
    ensures { Puts (32 ∷ cond (eqb n 0) first.now other.now) pen.old pen.new }
{
    pen.next_word(if n == 0 { first } else { other });
}

#[tactic(auto, unfolding(crate::specs::Listing::title_text, text::specs::Spaced::spaced, field::specs::Text::bytes))]
fn put_title(pen: &mut Pen, r: Record)
    ensures { Puts (title_text r) pen.old pen.new }
{
    pen.word(b"QTF");
    next_either(pen, r.choices.kind, b"difference", b"sum");
    pen.next_natural(u64::from(r.choices.component));
    next_either(pen, r.choices.coverage, b"single", b"full");
    pen.next_natural(slots::ticks_held(&r.slots.ticks) as u64);
    pen.next_natural(r.slots.held as u64);
}

// The first line: the choices and the two counts.
fn title(r: Record) -> Line<80>
    ensures { result ≡ line_of (title_text r) }
{
    let mut bytes = [0u8; 80];
    let mut pen = Pen::new(&mut bytes);
    put_title(&mut pen, r);
    let len = pen.end();
    Line { bytes, len }
}

fn put_entry(pen: &mut Pen, p: Pair, v: Parts)
    ensures { Puts (pair_text p (complex_of v)) pen.old pen.new }
{
    writing::put_pair(pen, p);
    pen.next_signed(i64::from(v.re));
    pen.next_signed(i64::from(v.im));
}

// A pair and its value.
fn written(p: Pair, v: Parts) -> Line<80>
    ensures { result ≡ line_of (pair_text p (complex_of v)) }
{
    let mut bytes = [0u8; 80];
    let mut pen = Pen::new(&mut bytes);
    put_entry(&mut pen, p, v);
    let len = pen.end();
    Line { bytes, len }
}

// A pair with its entry.
fn pair_line(r: Record, cells: &[i32], p: Pair) -> Line<80>
    ensures { result ≡ line_of (pair_text p (entry_at r.slots cells.now p.first p.second)) }
{
    written(p, entries::entry_at(r.slots, cells, p))
}

// The k-th line of the listing, from 0 on, and an empty one past the last; or 1 or 2.
pub fn line_at(r: Record, cells: &[i32], k: usize) -> Result<Line<80>, Refusal>
    ensures { listed_in result ≡ listed r cells.now k }
{
    validity::query_barred(r, cells.len())?;
    if k == 0 {
        return Ok(title(r));
    }
    let Some(p) = pairs::kth(r.choices.coverage, r.slots, k - 1) else {
        return Ok(Line::empty());
    };
    Ok(pair_line(r, cells, p))
}
