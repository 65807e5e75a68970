// What a line comes to.
ghost use Rattle.std.specs.Prelude.{◌≡◌, ◌≤◌, get_or, pos, nat_abs};
ghost use Rattle.field.specs.Units.{tick_of};
ghost use Rattle.row.specs.Line.{words};
ghost use Rattle.row.specs.Told.{told};
ghost use Rattle.row.specs.own.Found.{first_nine};
ghost use Rattle.row.specs.own.Values.{values_of};
ghost use Rattle.row.specs.own.Rows.{PeriodIn, same_node, fitted, judged, Says, decimals_in, ranged_row, formed_row, words_row, row_of};

use crate::columns::Columns;
use crate::layout::Layout;
use crate::values::Values;
use crate::{columns, fit, heading, layout, ranges, values};
use field::decimal::Decimal;
use field::units;
use refusals::refusal::Refusal;

// What the caller chooses, each as a number, since a choice can be invalid: kind 0 is difference and 1 sum, components are 1 to 6, coverage 0 is single
// and 1 full.
#[derive(Clone, Copy)]
pub struct Choices {
    pub kind: u8,
    pub component: u8,
    pub coverage: u8,
}

// What a used row says: two nodes, each a tick with a heading, and the two parts of their entry.
#[derive(Clone, Copy)]
pub struct Entry {
    pub tick1: u32,
    pub tick2: u32,
    pub heading1: i32,
    pub heading2: i32,
    pub re: i32,
    pub im: i32,
}

// What a line is that is not refused.
#[derive(Clone, Copy)]
pub enum Row {
    Blank,
    Title,
    PassedOver,
    Used(Entry),
}

// A period's tick.
fn frequency(microseconds: i32) -> u32
    requires { PeriodIn microseconds }
    ensures { result ≡ tick_of (nat_abs microseconds) }
{
    units::tick(microseconds as u32) as u32
}

fn same_node(e: Entry) -> bool
    ensures { result ≡ same_node e }
{
    e.tick1 == e.tick2 && e.heading1 == e.heading2
}

// A row whose columns fit: refusal 7, or used.
fn fitted(c: Choices, e: Entry) -> Result<Row, Refusal>
    ensures { told result ≡ fitted c e }
{
    if c.kind == 0 && same_node(e) && e.im != 0 {
        Err(Refusal::NotReal)
    } else {
        Ok(Row::Used(e))
    }
}

// Two headings in single coverage, refusal 17, and refusal 7.
fn judge(c: Choices, modulus: i32, e: Entry) -> Result<Row, Refusal>
    ensures { told result ≡ judged c (nat_abs modulus) e }
{
    if c.coverage == 0 && e.heading1 != e.heading2 {
        Ok(Row::PassedOver)
    } else if fit::fits(modulus, e.re, e.im) {
        fitted(c, e)
    } else {
        Err(Refusal::Misfit)
    }
}

// What the seven values of a row say, each in its unit and its range; the modulus says nothing of its own.
fn entered(values: [i32; 7]) -> Entry
    requires { PeriodIn (get_or values 0 (pos 0)) × PeriodIn (get_or values 1 (pos 0)) }
    ensures { Says (λ k. get_or values k (pos 0)) result }
{
    Entry {
        tick1: frequency(values[0]),
        tick2: frequency(values[1]),
        heading1: heading::heading(values[2]),
        heading2: heading::heading(values[3]),
        re: values[5],
        im: values[6],
    }
}

// The decimals whose values count, in the order of the columns.
fn counted(v: Values) -> [Decimal; 7]
    ensures { result ≡ decimals_in v }
{
    [v.per1, v.per2, v.beta1, v.beta2, v.modulus, v.re, v.im]
}

// Refusal 6, value by value in the order of the columns.
fn in_range(c: Choices, v: Values) -> Result<Row, Refusal>
    ensures { told result ≡ ranged_row c v }
{
    let decimals = counted(v);
    let quantities = ranges::quantities();
    let mut values = [0; 7];
    for i in 0..7 {
        let q = quantities[i];
        values[i] = units::in_units(decimals[i], q.places, q.least, q.most).ok_or(
            Refusal::OutOfRange,
        )?;
    }
    judge(c, values[4], entered(values))
}

// A row of as many fields as columns.
#[tactic(auto, unfolding(crate::specs::own::Rows::formed_row))]
fn formed_row(columns: &Columns, layout: Layout, c: Choices) -> Result<Row, Refusal>
    ensures { told result ≡ formed_row c (values_of layout (first_nine columns.now.line.now)) }
{
    let v = values::read_values(columns, layout).ok_or(Refusal::WrongForm)?;
    if v.component != c.component {
        return Ok(Row::PassedOver);
    }
    in_range(c, v)
}

// A line with no carriage return at its end.
fn bare_row(line: &[u8], layout: Layout, c: Choices, first: bool) -> Result<Row, Refusal>
    requires { layout.columns ≤ 9 }
    ensures { told result ≡ words_row layout c first (words line.now) }
{
    let columns = columns::find(line);
    if columns.count == 0 {
        Ok(Row::Blank)
    } else if first && columns.starts_with_letter() {
        Ok(Row::Title)
    } else if columns.count != layout.columns {
        Err(Refusal::FieldCount)
    } else {
        formed_row(&columns, layout, c)
    }
}

// The bytes of a line before its line feed; `first` says that it is the text's first line. `bare_row` is called at one place, so that the compiler puts it
// here with the layout's numbers in it.
pub fn read(line: &[u8], c: Choices, first: bool) -> Result<Row, Refusal>
    ensures { told result ≡ row_of c first line.now }
{
    bare_row(columns::bare(line), layout::wamit(), c, first)
}
