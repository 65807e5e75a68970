// The phase of a wave: cosine and sine at any step of the turn, over 2^30, from the table of one quarter turn. Document 01, "Coefficients and forces".
#![tactic(auto)]

ghost use Rattle.std.specs.Prelude.{◌≡◌, cond, ◌&&◌, ◌*◌, ◌≤◌, ◌<◌, ◌^◌, ltb, leb, pos, neg_ℤ};
ghost use Rattle.phase.specs.Turn.{quarter_of, phase, complex_of};
ghost use Rattle.phase.specs.own.Folding.{folded};

pub mod quarter;

// Cosine and sine at a step.
#[derive(Clone, Copy)]
pub struct Phase {
    pub cosine: i64,
    pub sine: i64,
}

// An entry with its sign.
fn signed(below: bool, size: u32) -> i64
    ensures { result ≡ cond below (neg_ℤ (pos size)) (pos size) }
{
    let entry = i64::from(size);
    if below { -entry } else { entry }
}

// Whether a step is above the one end and not above the other.
fn is_within(k: u64, low: u64, high: u64) -> bool
    ensures { result ≡ (ltb low k && leb k high) }
{
    low < k && k <= high
}

// Where a step of the turn falls in the quarter turn table: back from the turn's end, and then back from the half turn. n is the steps to the quarter.
#[tactic(auto, unfolding(crate::specs::own::Folding::folded))]
fn fold(n: u64, k: u64) -> u64
    requires { (4 * n < 2 ^ 64) × (k ≤ 4 * n) }
    ensures place { result ≡ folded n k }
    ensures inside { result ≤ n }
{
    let u = k.min(4 * n - k);
    u.min(2 * n - u)
}

// The phase at a step, from a table of any number of steps to the quarter turn. The step is taken modulo the turn, once for cosine and sine: where it falls in the
// table from the one end the sine falls from the other. A table with no step has its one entry at every step.
pub fn phase_in(table: &[u32], step: u64) -> Phase
    ensures { complex_of result ≡ phase (quarter_of table.now) step }
{
    match table {
        [] => Phase { cosine: 0, sine: 0 },
        [only] => {
            let only = i64::from(*only);
            Phase {
                cosine: only,
                sine: only,
            }
        }
        _ => {
            let n = (table.len() - 1) as u64;
            let k = step % (4 * n);
            let i = fold(n, k);
            Phase {
                cosine: signed(is_within(k, n, 3 * n), table[i as usize]),
                sine: signed(!is_within(k, 0, 2 * n), table[(n - i) as usize]),
            }
        }
    }
}
