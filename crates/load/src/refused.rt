// A refused query.
ghost use Rattle.std.specs.Prelude.{◌≡◌};

use refusals::refusal::Refusal;

// Why it is refused, and the sea line or the point that it is for, counted from 1; 0 for none.
#[derive(Clone, Copy, Debug, PartialEq, Eq)]
pub struct Refused {
    pub refusal: Refusal,
    pub line: u32,
}

// 15, which is for no line.
pub(crate) const CELL_OUTSIDE: Refused = Refused {
    refusal: Refusal::CellOutside,
    line: 0,
};

// For no line.
impl From<Refusal> for Refused {
    ghost from_gives = { λ refusal refused. refused ≡ record { refusal = refusal; line = 0 } };

    fn from(refusal: Refusal) -> Refused {
        Refused { refusal, line: 0 }
    }
}
