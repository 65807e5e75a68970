// A size with a minus put before it. The least number has a size that no signed word holds, and is its size with a minus all the same.
ghost use Rattle.std.specs.Prelude.{◌≡◌, ◌^◌, min, pos, neg_ℤ};

// -n; of an n past 2^63, which has no negative word, the least number.
pub fn minus(n: u64) -> i64
    ensures { result ≡ neg_ℤ (pos (min n (2 ^ 63))) }
{
    if n == 0 {
        return 0;
    }
    if 0x8000_0000_0000_0000 < n {
        return i64::MIN;
    }
    -1 - ((n - 1) as i64)
}
