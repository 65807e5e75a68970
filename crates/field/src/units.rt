// A decimal in a unit: rounded once, and held to a range. Document 01, "Numbers".
ghost use Rattle.std.specs.Prelude.{◌≡◌, cond, ◌*◌, ◌^◌, ◌<◌, ltb};
ghost use Rattle.whole.specs.Nearest.{nearest};
ghost use Rattle.field.specs.Units.{within_word, with_sign, in_range, in_units, tick_of};

use crate::decimal::Decimal;

// Every signed word of 32 bits keeps to this size.
const WORD: u64 = 0x8000_0000;

const TENS: [u64; 20] = [
    1,
    10,
    100,
    1_000,
    10_000,
    100_000,
    1_000_000,
    10_000_000,
    100_000_000,
    1_000_000_000,
    10_000_000_000,
    100_000_000_000,
    1_000_000_000_000,
    10_000_000_000_000,
    100_000_000_000_000,
    1_000_000_000_000_000,
    10_000_000_000_000_000,
    100_000_000_000_000_000,
    1_000_000_000_000_000_000,
    10_000_000_000_000_000_000,
];

// 10^n, where a word of 64 bits holds it.
fn ten_to(n: u64) -> Option<u64>
    ensures { result ≡ cond (ltb n 20) (Some (10 ^ n)) None }
{
    TENS.get(n as usize).copied()
}

// A size that is no larger than a word's.
fn within_word(size: u64) -> Option<u64>
    ensures { result ≡ within_word size }
{
    if size <= WORD { Some(size) } else { None }
}

// digits · 10^n. Ten digits are past 2^31, whatever stands before them. Both are held to a word of 32 bits first, so that their product has one of 64: a product that is
// tested for its size would be made 128 bits wide.
fn raised(digits: u64, n: u64) -> Option<u64>
    ensures { result ≡ within_word (digits * 10 ^ n) }
{
    if digits == 0 {
        return Some(0);
    }
    let size = within_word(digits)?;
    let ten = within_word(ten_to(n)?)?;
    within_word(size * ten)
}

// digits / 10^n, rounded. Over 10^20, which is more than twice any word, nothing is left.
fn lowered(digits: u64, n: u64) -> Option<u64>
    ensures { result ≡ within_word (nearest digits (10 ^ n)) }
{
    let Some(ten) = ten_to(n) else {
        return Some(0);
    };
    within_word(whole::rounding::nearest(digits, ten))
}

// digits · 10^up / 10^down, rounded once: the tens that stand on both sides fall away.
fn scaled(digits: u64, up: u64, down: u64) -> Option<u64>
    ensures { result ≡ within_word (nearest (digits * 10 ^ up) (10 ^ down)) }
{
    if down <= up {
        raised(digits, up - down)
    } else {
        lowered(digits, down - up)
    }
}

fn with_sign(negative: bool, size: u64) -> i64
    requires { size < 2 ^ 32 }
    ensures { result ≡ with_sign negative size }
{
    let size = size as i64;
    if negative { -size } else { size }
}

fn in_range(z: i64, low: i32, high: i32) -> Option<i32>
    ensures { result ≡ in_range low high z }
{
    if i64::from(low) <= z && z <= i64::from(high) {
        Some(z as i32)
    } else {
        None
    }
}

// A decimal in the unit 10^-places; none where it is not from low to high after rounding.
pub fn in_units(d: Decimal, places: u32, low: i32, high: i32) -> Option<i32>
    ensures { result ≡ in_units d places low high }
{
    let up = u64::from(d.up) + u64::from(places);
    let size = scaled(d.digits, up, u64::from(d.down))?;
    in_range(with_sign(d.negative, size), low, high)
}

// The frequency of a period, in ticks of 0.0001 Hz.
pub fn tick(microseconds: u32) -> u64
    ensures { result ≡ tick_of microseconds }
{
    whole::rounding::nearest(10_000_000_000, u64::from(microseconds))
}
