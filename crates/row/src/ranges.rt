// The ranges of document 01, "Numbers", and of document 02, M-101, each said once; specs/Ranges has the same numbers for the rules.
ghost use Rattle.std.specs.Prelude.{◌≡◌};
ghost use Rattle.row.specs.own.Rows.{quantities};

pub const PERIOD_LEAST: i32 = 1_000_000;

pub const PERIOD_MOST: i32 = 100_000_000;

pub const HEADING_LEAST: i32 = -180_000;

pub const HEADING_MOST: i32 = 180_000;

pub const PART_LEAST: i32 = -1_000_000_000;

pub const PART_MOST: i32 = 1_000_000_000;

pub const MODULUS_MOST: i32 = 1_415_000_000;

pub const TICK_LEAST: u32 = 100;

pub const TICK_MOST: u32 = 10_000;

// What a value of a row is a number of: its unit, 10^-places, and its range.
#[derive(Clone, Copy)]
pub struct Quantity {
    pub places: u32,
    pub least: i32,
    pub most: i32,
}

// The quantities of a row's seven values, in the order of the columns.
pub fn quantities() -> [Quantity; 7]
    ensures { result ≡ quantities }
{
    let period = Quantity {
        places: 6,
        least: PERIOD_LEAST,
        most: PERIOD_MOST,
    };
    let heading = Quantity {
        places: 3,
        least: HEADING_LEAST,
        most: HEADING_MOST,
    };
    let part = Quantity {
        places: 6,
        least: PART_LEAST,
        most: PART_MOST,
    };
    let magnitude = Quantity {
        places: 6,
        least: 0,
        most: MODULUS_MOST,
    };
    [period, period, heading, heading, magnitude, part, part]
}
