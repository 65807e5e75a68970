// The bench's own cells and flags, looked at: those of one pair of nodes, and the sum of all.
ghost use Rattle.std.specs.Prelude.{◌≡◌};
ghost use Rattle.script.specs.Place.{number_at, natural_of};
ghost use Rattle.asking.specs.Memory.{place_of, cell_asked, added, raised, sum_of, sum_asked};

use crate::queries;
use replies::reply::Reply;
use script::numbers::Numbers;
use table::entries;

// A pair of nodes by the first two numbers, 0 to 79 each: 80 times the row and the column.
#[tactic(auto, unfolding(crate::specs::Memory::place_of))]
pub fn place_of(n: &Numbers) -> Option<usize>
    ensures { result ≡ place_of (natural_of (number_at n.now 0)) (natural_of (number_at n.now 1)) }
{
    let row = n.natural_at(0)?;
    let column = n.natural_at(1)?;
    if 79 < row || 79 < column {
        return None;
    }
    Some((80 * row + column) as usize)
}

// `cell ROW COLUMN`.
#[tactic(auto, unfolding(crate::specs::Memory::cell_asked, crate::specs::Memory::cell_as))]
pub fn cell(n: &Numbers, cells: &[i32], flags: &[u8]) -> Reply
    ensures { result ≡ cell_asked n.now cells.now flags.now }
{
    if n.count != 2 {
        return Reply::Unknown;
    }
    let Some(p) = place_of(n) else {
        return Reply::Unknown;
    };
    let z = entries::entry(cells, p / 80, p % 80);
    Reply::Cell(z.re, z.im, flags.get(p).copied().unwrap_or(0))
}

// One number more in the sum.
#[tactic(auto, unfolding(crate::specs::Memory::added))]
fn added(s: u32, v: u32) -> u32
    ensures { result ≡ added s v }
{
    ((31 * u64::from(s) + u64::from(v)) % 1_000_000_007) as u32
}

// A cell and 2^31.
#[tactic(auto, unfolding(crate::specs::Memory::raised))]
fn raised(z: i32) -> u32
    ensures { result ≡ raised z }
{
    (i64::from(z) + 0x8000_0000) as u32
}

// All cells, and then all flags.
#[tactic(auto, unfolding(crate::specs::Memory::sum_of, crate::specs::Memory::summed))]
fn sum_of(cells: &[i32], flags: &[u8]) -> u32
    ensures { result ≡ sum_of cells.now flags.now }
{
    let cells = cells.iter().fold(0, |s, z| added(s, raised(*z)));
    flags
        .iter()
        .fold(cells, |s, flag| added(s, u32::from(*flag)))
}

// `sum`.
#[tactic(auto, unfolding(crate::specs::Memory::sum_asked))]
pub fn sum(n: &Numbers, cells: &[i32], flags: &[u8]) -> Reply
    ensures { result ≡ sum_asked n.now cells.now flags.now }
{
    queries::bare(n, Reply::Sum(sum_of(cells, flags)))
}
