// Whether MOD fits RE and IM (document 02, M-101), by squares: no root is taken. Any three numbers are taken, in range or not.
ghost use Rattle.std.specs.Prelude.{◌≡◌, ◌*◌, ◌^◌, ◌<◌, ◌≤◌, nat_abs};
ghost use Rattle.row.specs.Fit.{both_squares};
ghost use Rattle.row.specs.own.Rows.{is_fit};

// |x|, of 32 bits.
fn size(x: i32) -> u64
    ensures value { result ≡ nat_abs x }
    ensures small { result ≤ 2 ^ 31 }
{
    u64::from(x.unsigned_abs())
}

fn square(n: u64) -> u64
    requires { n < 2 ^ 32 }
    ensures { result ≡ n * n }
{
    n * n
}

// RE squared plus IM squared.
fn both_squares(re: i32, im: i32) -> u64
    ensures { result ≡ both_squares re im }
{
    square(size(re)) + square(size(im))
}

// M - k is 0 where M is less.
pub(crate) fn fits(modulus: i32, re: i32, im: i32) -> bool
    ensures { result ≡ is_fit (nat_abs modulus) re im }
{
    let m = size(modulus);
    let k = 2 + m / 100_000;
    let both = both_squares(re, im);
    square(m.saturating_sub(k)) <= both && both <= square(m + k)
}
