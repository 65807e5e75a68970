// A double and its 64 bits. Rust leaves open which pattern a NaN has; the page of the bench knows one scale that is not a number, and no reading is one.
ghost use Rattle.std.specs.Prelude.{◌≡◌};
ghost use Rattle.std.specs.Float.{binary64};
ghost use Rattle.std.specs.Float.Ieee.{of_bits, to_bits};

// The double of a pattern. A NaN's has an exponent that is all ones and a fraction that is not 0, which without its sign is more than infinity's.
pub(crate) fn of_bits(bits: u64) -> f64
    ensures { result ≡ of_bits binary64 bits }
{
    if 0x7ff0_0000_0000_0000 < bits % 0x8000_0000_0000_0000 {
        return f64::NAN;
    }
    f64::from_bits(bits)
}

// The pattern of a double. What is not a number, and alone is not its own equal, has one pattern.
pub(crate) fn bits_of(x: f64) -> u64
    ensures { result ≡ to_bits binary64 x }
{
    if x.is_nan() {
        return 0x7ff8_0000_0000_0000;
    }
    x.to_bits()
}
