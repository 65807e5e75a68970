// Two words, the products that go into them, and the rounded quotient that comes out.
ghost use Rattle.std.specs.Prelude.{◌≡◌, ◌*◌, ◌^◌, min, pos, ◌*ℤ◌};
ghost use Rattle.whole.specs.Nearest.{nearest};
ghost use Rattle.total.specs.Total.{words, meaning, Added, Negated, rounded_of};

use crate::halves;
use whole::{rounding, sign};

#[derive(Clone, Copy)]
pub struct Total {
    pub low: u64,
    pub high: u64,
}

impl Total {
    pub fn zero() -> Total
        ensures { meaning result ≡ pos 0 }
    {
        Total { low: 0, high: 0 }
    }

    // self + x. The low words wrap exactly where a carry leaves them, and then their sum is below either of them.
    pub fn add(self, x: Total) -> Total
        ensures { Added self x result }
    {
        let low = self.low.wrapping_add(x.low);
        let carry = if low < self.low { 1 } else { 0 };
        Total {
            low,
            high: self.high.wrapping_add(x.high).wrapping_add(carry),
        }
    }

    // -self, which has room but for the least number. Nothing is borrowed from the high word where the low one is 0.
    pub fn negated(self) -> Total
        ensures { Negated self result }
    {
        let low = self.low.wrapping_neg();
        let high = if low == 0 {
            self.high.wrapping_neg()
        } else {
            !self.high
        };
        Total { low, high }
    }

    // The total over 2^30, rounded, and the end of the range where that is past a word. The size is rounded, and keeps the sign.
    pub fn rounded(self) -> i64
        ensures { result ≡ rounded_of self }
    {
        if 0x8000_0000_0000_0000 <= self.high {
            sign::minus(quotient(self.negated()))
        } else {
            quotient(self).min(i64::MAX as u64) as i64
        }
    }
}

// The 128 bits over 2^30, rounded, and 2^63 where that is more. Below a high word of 2^29 the quotient is below 2^63, and the rounded one may be 2^63.
fn quotient(t: Total) -> u64
    ensures { result ≡ min (nearest (words t) (2 ^ 30)) (2 ^ 63) }
{
    if 0x2000_0000 <= t.high {
        0x8000_0000_0000_0000
    } else {
        let q = (t.high << 34) + (t.low >> 30);
        q + rounding::rounds_up(q, t.low % 0x4000_0000, 0x4000_0000)
    }
}

// m k in two words, by the halves of m: each times k, the upper one moved up by a half, and added with its carry. What multiplies is `halves`, 16 bits by 16.
pub fn wide(m: u64, k: u32) -> Total
    ensures { words result ≡ m * k }
{
    let lower = halves::times((m % 0x1_0000_0000) as u32, k);
    let upper = halves::times((m >> 32) as u32, k);
    let first = Total {
        low: lower,
        high: 0,
    };
    first.add(Total {
        low: upper << 32,
        high: upper >> 32,
    })
}

// a c, as a whole number: the product of the sizes, negated where one factor alone is negative.
pub fn product(a: i64, c: i32) -> Total
    ensures { meaning result ≡ a *ℤ c }
{
    let p = wide(a.unsigned_abs(), c.unsigned_abs());
    if (a < 0) == (c < 0) { p } else { p.negated() }
}
