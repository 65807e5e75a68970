// What stands in a line, put by a pen.
ghost use Rattle.std.specs.Prelude.{◌≡◌, [], ◌∷◌, ◌++◌, map, ◌≤◌, leb, eqb, pos, take, get_or};
ghost use Rattle.std.specs.Int.Signed.{le_z};
ghost use Rattle.whole.specs.Same.{same_ℤ};
ghost use Rattle.text.specs.Decimal.{natural, decimal};
ghost use Rattle.text.specs.Pen.{Puts};
ghost use Rattle.grid.specs.Slots.{slot_of, held_ticks, held_headings};
ghost use Rattle.table.specs.Pairs.{ascending};
ghost use Rattle.table.specs.Entries.{complex_of};
ghost use Rattle.qtf.specs.Matrix.{billionths, frequency_text, heading_text, parts_in, matrix_line, head_lines};
ghost use Rattle.qtf.specs.own.Spacing.{gap, behind, index_text};

use grid::nodes::{Pair, Slots};
use grid::slots;
use table::entries::Parts;
use table::pairs;
use table::pairs::Order;
use text::pen::Pen;
use whole::rounding;

// A frequency in billionths of rad/s. Twenty thousand ticks are an even number of them, so that only what is left is rounded, and no product overflows.
fn frequency(tick: u32) -> i64
    ensures { result ≡ pos (billionths tick) }
{
    let t = u64::from(tick);
    let whole = t / 20_000 * 12_566_370_614;
    let rest = rounding::nearest(t % 20_000 * 6_283_185_307, 10_000);
    (whole + rest) as i64
}

// The i-th number of a line, with a space before it where it is not the first.
fn item(pen: &mut Pen, i: usize, z: i64, places: u8)
    ensures { Puts (gap i ++ decimal places z) pen.old pen.new }
{
    if i == 0 {
        pen.decimal(z, places);
    } else {
        pen.next_decimal(z, places);
    }
}

// Frequencies, with nine decimals.
fn put_frequencies(pen: &mut Pen, ticks: &[u32])
    ensures { Puts (frequency_text ticks.now) pen.old pen.new }
{
    for (i, t) in ticks.iter().enumerate() {
        item(pen, i, frequency(*t), 9);
    }
}

// Headings, with three. One function for both lists would need a trait of units and places, for a `for` that it spares.
fn put_headings(pen: &mut Pen, headings: &[i32])
    ensures { Puts (heading_text headings.now) pen.old pen.new }
{
    for (i, h) in headings.iter().enumerate() {
        item(pen, i, i64::from(*h), 3);
    }
}

// What one table says of a pair, each part with a space before it and six decimals.
fn next_value(pen: &mut Pen, v: Parts)
    ensures { Puts ((32 ∷ decimal 6 v.re) ++ (32 ∷ decimal 6 v.im)) pen.old pen.new }
{
    pen.next_decimal(i64::from(v.re), 6);
    pen.next_decimal(i64::from(v.im), 6);
}

// What the six say of it.
fn next_values(pen: &mut Pen, values: [Parts; 6])
    ensures { Puts (behind (map (decimal 6) (parts_in (map complex_of values)))) pen.old pen.new }
{
    for v in values {
        next_value(pen, v);
    }
}

// Where a frequency stands among those in order, and where a heading does.
fn tick_index(o: Order, t: u32) -> usize
    ensures { result ≡ slot_of eqb (take o.frequencies o.ticks) t }
{
    slots::place(o.ticks(), t)
}

fn heading_index(o: Order, h: i32) -> usize
    ensures { result ≡ slot_of same_ℤ (take o.held o.headings) h }
{
    slots::place(o.headings(), h)
}

// The indexes of a pair's frequencies, and then those of its headings.
fn put_indexes(pen: &mut Pen, o: Order, p: Pair)
    ensures { Puts (index_text (take o.frequencies o.ticks) (take o.held o.headings) p) pen.old pen.new }
{
    pen.natural(tick_index(o, p.first.tick) as u64);
    pen.next_natural(tick_index(o, p.second.tick) as u64);
    pen.next_natural(heading_index(o, p.first.heading) as u64);
    pen.next_natural(heading_index(o, p.second.heading) as u64);
}

// The line of a pair, in the order that the slots give, and of what the six say of it.
pub fn put_row(pen: &mut Pen, s: Slots, p: Pair, values: [Parts; 6])
    ensures { Puts (matrix_line (ascending leb (held_ticks s.ticks)) (ascending le_z (held_headings s)) p (map complex_of values)) pen.old pen.new }
{
    put_indexes(pen, pairs::in_order(s), p);
    next_values(pen, values);
}

// One of the five lines before the matrix, by its number from 0 on; nothing past them.
pub fn put_head(pen: &mut Pen, s: Slots, k: usize)
    ensures { Puts (get_or (head_lines (ascending leb (held_ticks s.ticks)) (ascending le_z (held_headings s))) k []) pen.old pen.new }
{
    match k {
        0 => pen.word(b"$QTFFrequencies"),
        1 => {
            let o = pairs::in_order(s);
            put_frequencies(pen, o.ticks());
        }
        2 => pen.word(b"$QTFHeadings"),
        3 => {
            let o = pairs::in_order(s);
            put_headings(pen, o.headings());
        }
        4 => pen.word(b"$WaveDriftQTFMatrix"),
        _ => {}
    }
}
