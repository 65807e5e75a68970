// The fields of a row by their names, as decimals.
ghost use Rattle.std.specs.Prelude.{◌≡◌};
ghost use Rattle.row.specs.own.Found.{first_nine};
ghost use Rattle.row.specs.own.Values.{decimals_of, values_of};

use crate::columns::Columns;
use crate::layout::Layout;
use field::decimal::Decimal;

// What a row says, before any range is tested: its component, and seven decimals.
#[derive(Clone, Copy)]
pub(crate) struct Values {
    pub component: u8,
    pub per1: Decimal,
    pub per2: Decimal,
    pub beta1: Decimal,
    pub beta2: Decimal,
    pub modulus: Decimal,
    pub re: Decimal,
    pub im: Decimal,
}

// What an array of decimals holds before it is filled.
const UNREAD: Decimal = Decimal {
    negative: false,
    digits: 0,
    up: 0,
    down: 0,
};

// The columns of the decimals, in the order in which their forms are tested: two nodes, then MOD, PHS, RE and IM.
fn decimals(layout: Layout) -> [usize; 8]
    ensures { result ≡ decimals_of layout }
{
    [
        layout.per1,
        layout.per2,
        layout.beta1,
        layout.beta2,
        layout.modulus,
        layout.phase,
        layout.re,
        layout.im,
    ]
}

// All fields of a row; none where one has the wrong form. `decimal` is called at one place, in a loop, so that the compiler puts it here.
pub(crate) fn read_values(columns: &Columns, layout: Layout) -> Option<Values>
    ensures { result ≡ values_of layout (first_nine columns.now.line.now) }
{
    let places = decimals(layout);
    let mut numbers = [UNREAD; 8];
    for i in 0..8 {
        numbers[i] = columns.decimal(places[i])?;
    }
    let component = columns.component(layout.component)?;
    Some(Values {
        component,
        per1: numbers[0],
        per2: numbers[1],
        beta1: numbers[2],
        beta2: numbers[3],
        modulus: numbers[4],
        re: numbers[6],
        im: numbers[7],
    })
}
