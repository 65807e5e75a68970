// Which field of a refused row offends (document 02, M-103), for the numbers 5 and 6: the first in the order of the columns, by the tests with which the row
// is read.
ghost use Rattle.std.specs.Prelude.{◌≡◌};
ghost use Rattle.std.specs.List.{find, range_with_len};
ghost use Rattle.row.specs.own.Found.{first_nine};
ghost use Rattle.row.specs.own.Rows.{is_in};
ghost use Rattle.faults.specs.Offending.{offending_field};
ghost use Rattle.faults.specs.own.Offends.{is_misformed, quantity_at, is_outside, offends};

use field::decimal::Decimal;
use field::units;
use row::columns::Columns;
use row::layout::Layout;
use row::ranges::Quantity;
use row::{columns, layout, ranges};

// Whether a column's field has the wrong form.
fn misformed(columns: &Columns, layout: Layout, k: usize) -> bool
    ensures { result ≡ is_misformed layout (first_nine columns.now.line.now) k }
{
    if k == layout.component {
        columns.component(k).is_none()
    } else {
        columns.decimal(k).is_none()
    }
}

// What a column's value is a number of; none where its value does not count.
fn quantity(layout: Layout, k: usize) -> Option<Quantity>
    ensures { result ≡ quantity_at layout k }
{
    let counted = [
        layout.per1,
        layout.per2,
        layout.beta1,
        layout.beta2,
        layout.modulus,
        layout.re,
        layout.im,
    ];
    let place = counted.iter().position(|column| *column == k)?;
    Some(ranges::quantities()[place])
}

fn is_in(q: Quantity, d: Decimal) -> bool
    ensures { result ≡ is_in q d }
{
    units::in_units(d, q.places, q.least, q.most).is_some()
}

// Whether a column's value counts, and is out of its range.
fn outside(columns: &Columns, layout: Layout, k: usize) -> bool
    ensures { result ≡ is_outside layout (first_nine columns.now.line.now) k }
{
    let Some(quantity) = quantity(layout, k) else {
        return false;
    };
    columns.decimal(k).is_some_and(|d| !is_in(quantity, d))
}

// Whether a column offends by a number.
fn offends(columns: &Columns, layout: Layout, number: u8, k: usize) -> bool
    ensures { result ≡ offends layout number (first_nine columns.now.line.now) k }
{
    match number {
        5 => misformed(columns, layout, k),
        6 => outside(columns, layout, k),
        _ => false,
    }
}

// The first column that offends.
fn first(columns: &Columns, layout: Layout, number: u8) -> Option<usize>
    ensures { result ≡ find (offends layout number (first_nine columns.now.line.now)) (range_with_len 0 layout.columns) }
{
    (0..layout.columns).find(|k| offends(columns, layout, number, *k))
}

// The field of a line that offends by 5 or by 6, counted from 1. It is 0 where none does, where the line has not nine fields, and for every other number: so
// document 02 has it.
pub fn field(line: &[u8], number: u8) -> u8
    ensures { result ≡ offending_field number line.now }
{
    let layout = layout::wamit();
    let columns = columns::of_line(line);
    if columns.count != layout.columns {
        return 0;
    }
    match first(&columns, layout, number) {
        Some(k) => (k + 1) as u8,
        None => 0,
    }
}
