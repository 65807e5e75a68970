// Products from halves of 16 bits: the board has no wider multiplier. `part` is the only product of the crate. tests/products reads that in the compiled code: two factors
// widened by `as`, right before they are multiplied.
ghost use Rattle.std.specs.Prelude.{◌≡◌, ◌*◌};

fn part(a: u16, b: u16) -> u32
    ensures { result ≡ a * b }
{
    (a as u32) * (b as u32)
}

// x h, a row of partial products: one for each half of x, the upper one moved up by a half.
fn row(x: u32, h: u16) -> u64
    ensures { result ≡ x * h }
{
    let lower = u64::from(part((x % 0x1_0000) as u16, h));
    let upper = u64::from(part((x >> 16) as u16, h));
    (upper << 16) + lower
}

// x k: a row for each half of k, the upper one moved up by a half.
pub(crate) fn times(x: u32, k: u32) -> u64
    ensures { result ≡ x * k }
{
    let first = row(x, (k % 0x1_0000) as u16);
    let second = row(x, (k >> 16) as u16);
    (second << 16) + first
}
