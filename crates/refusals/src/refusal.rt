// The reasons in the order of their numbers.
ghost use Rattle.std.specs.Prelude.{◌≡◌};
ghost use Rattle.refusals.specs.Numbered.{number_of, Named};

// Each variant has its number before it.
#[derive(Clone, Copy, Debug, PartialEq, Eq)]
pub enum Refusal {
    // 1: a lent buffer is too short.
    ShortBuffer,
    // 2: a choice or a record is not valid, or the call comes at the wrong time.
    NotValid,
    // 3: a line is over 160 bytes, or past line 1,000,000.
    LongText,
    // 4: a line has not as many fields as a row.
    FieldCount,
    // 5: a field has the wrong form.
    WrongForm,
    // 6: a value is out of its range, after rounding.
    OutOfRange,
    // 7: an entry of equal nodes is not real in a difference table.
    NotReal,
    // 8: a frequency or a heading has no slot left.
    NoSlot,
    // 9: a cell or its mirror is already set to another value.
    Contradicted,
    // 10: the text ended with no row used.
    NoRow,
    // 11: a pair that is needed is missing.
    MissingPair,
    // 12: a sea is not admissible.
    Inadmissible,
    // 13: a frequency lies below the lowest or above the highest.
    FrequencyOutside,
    // 14: a heading is not the table's, or in single coverage not that of line 1.
    HeadingOutside,
    // 15: a part of a cell that is needed is out of its bounds.
    CellOutside,
    // 16: a scale is not usable.
    Scale,
    // 17: MOD does not fit RE and IM.
    Misfit,
    // 18: six tables are not those of one hull.
    NotOneHull,
    // 19: the room for a text is too short.
    ShortRoom,
}

// A number that stands for no reason.
#[derive(Clone, Copy, Debug, PartialEq, Eq)]
pub struct NoRefusal(pub u8);

impl Refusal {
    // The number that stands for it.
    pub fn number(self) -> u8
        ensures { result ≡ number_of self }
    {
        match self {
            Refusal::ShortBuffer => 1,
            Refusal::NotValid => 2,
            Refusal::LongText => 3,
            Refusal::FieldCount => 4,
            Refusal::WrongForm => 5,
            Refusal::OutOfRange => 6,
            Refusal::NotReal => 7,
            Refusal::NoSlot => 8,
            Refusal::Contradicted => 9,
            Refusal::NoRow => 10,
            Refusal::MissingPair => 11,
            Refusal::Inadmissible => 12,
            Refusal::FrequencyOutside => 13,
            Refusal::HeadingOutside => 14,
            Refusal::CellOutside => 15,
            Refusal::Scale => 16,
            Refusal::Misfit => 17,
            Refusal::NotOneHull => 18,
            Refusal::ShortRoom => 19,
        }
    }
}

impl TryFrom<u8> for Refusal {
    type Error = NoRefusal;

    ghost try_from_gives = { Named };

    fn try_from(number: u8) -> Result<Self, NoRefusal> {
        match number {
            1 => Ok(Refusal::ShortBuffer),
            2 => Ok(Refusal::NotValid),
            3 => Ok(Refusal::LongText),
            4 => Ok(Refusal::FieldCount),
            5 => Ok(Refusal::WrongForm),
            6 => Ok(Refusal::OutOfRange),
            7 => Ok(Refusal::NotReal),
            8 => Ok(Refusal::NoSlot),
            9 => Ok(Refusal::Contradicted),
            10 => Ok(Refusal::NoRow),
            11 => Ok(Refusal::MissingPair),
            12 => Ok(Refusal::Inadmissible),
            13 => Ok(Refusal::FrequencyOutside),
            14 => Ok(Refusal::HeadingOutside),
            15 => Ok(Refusal::CellOutside),
            16 => Ok(Refusal::Scale),
            17 => Ok(Refusal::Misfit),
            18 => Ok(Refusal::NotOneHull),
            19 => Ok(Refusal::ShortRoom),
            _ => Err(NoRefusal(number)),
        }
    }
}
