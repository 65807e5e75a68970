// Rounding to the nearest whole unit, a tie to the even one: document 01, "Numbers".
ghost use Rattle.std.specs.Prelude.{◌≡◌};
ghost use Rattle.whole.specs.Nearest.{rounds_up, nearest, nearest_ℤ};

use crate::sign;

// What rounding adds to the quotient q that left the remainder r of d: 0 or 1. Every rounding of the project takes this step, those of two words with
// their lower word for q. Of an odd q a tie goes up as more than a half does. Where r is d or past it, as no remainder is, it lacks nothing to d.
pub fn rounds_up(q: u64, r: u64, d: u64) -> u64
    ensures { result ≡ rounds_up q r d }
{
    if d <= r {
        if r == 0 {
            return q % 2;
        }
        return 1;
    }
    let odd = q % 2;
    if d - r < r + odd {
        return 1;
    }
    0
}

// n / d, rounded. Over 0 the answer is 0.
pub fn nearest(n: u64, d: u64) -> u64
    ensures { result ≡ nearest n d }
{
    if d == 0 {
        return 0;
    }
    let q = n / d;
    q + rounds_up(q, n % d, d)
}

// x / d, rounded: the size is rounded and keeps its sign, for the least number too.
pub fn nearest_signed(x: i64, d: u64) -> i64
    ensures { result ≡ nearest_ℤ x d }
{
    let q = nearest(x.unsigned_abs(), d);
    if x < 0 {
        return sign::minus(q);
    }
    q as i64
}
