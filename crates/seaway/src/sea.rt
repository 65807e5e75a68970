// A sea, and what is tested of it before any line is looked at.
ghost use Rattle.std.specs.Prelude.{◌≡◌, ◌^◌, ◌≤◌};
ghost use Rattle.whole.specs.Complex.{sizes};
ghost use Rattle.seaway.specs.Sea.{lines_of, size_of, rises, is_inadmissible};

// Up to 64 lines, by value. Four arrays, since the theorems of promises_queries/specs/SeaLines.antt are about these.
#[derive(Clone, Copy)]
pub struct Sea {
    pub count: usize,
    pub ticks: [u32; 64],
    pub headings: [i32; 64],
    pub re: [i32; 64],
    pub im: [i32; 64],
}

fn is_rising(s: Sea) -> bool
    requires { s.count ≤ 64 }
    ensures { result ≡ rises (lines_of s) }
{
    s.ticks[..s.count].is_sorted_by(|a, b| a < b)
}

// The sizes of both parts of an amplitude.
fn both_sizes(re: i32, im: i32) -> u64
    ensures value { result ≡ sizes (record { re = re; im = im }) }
    ensures small { result ≤ 2 ^ 32 }
{
    u64::from(re.unsigned_abs()) + u64::from(im.unsigned_abs())
}

// A: the sizes of both parts, over all lines.
fn sea_size(s: Sea) -> u64
    requires { s.count ≤ 64 }
    ensures { result ≡ size_of (lines_of s) }
{
    let mut sum = 0;
    for i in 0..s.count {
        sum += both_sizes(s.re[i], s.im[i]);
    }
    sum
}

// 12: over 64 lines, ticks that do not strictly rise, or A over 40,000.
pub fn is_inadmissible(s: Sea) -> bool
    ensures { result ≡ is_inadmissible s }
{
    64 < s.count || !is_rising(s) || 40_000 < sea_size(s)
}
