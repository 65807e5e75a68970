// Where a frequency stands among the table's own: its two neighbours, and how it is weighed between them.
ghost use Rattle.std.specs.Prelude.{◌≡◌, ◌<◌, leb, Some};
ghost use Rattle.grid.specs.Slots.{held_ticks};
ghost use Rattle.neighbours.specs.Standing.{low_of, high_of, between, apart};
ghost use Rattle.neighbours.specs.Neighbours.{FoundAt, rise_of, neighbour_at, neighbours_of};

// The weights of the two neighbours, and the width that they are over.
#[derive(Clone, Copy)]
pub struct Weights {
    pub to_low: u32,
    pub to_high: u32,
    pub width: u32,
}

// A neighbour of a frequency, with a slot that holds it.
#[derive(Clone, Copy)]
pub struct Neighbour {
    pub tick: u32,
    pub slot: u32,
}

// The neighbour below and the one above, where there is one.
#[derive(Clone, Copy)]
pub struct Neighbours {
    pub low: Option<Neighbour>,
    pub high: Option<Neighbour>,
}

// How far a slot lies above f: 32 for each tick, and the slot's number. It is counted round, modulo 2^64, so that what lies below f is further up than all that lies
// above it.
fn rise(tick: u32, slot: u32, f: u32) -> u64
    ensures { result ≡ rise_of f tick slot }
{
    (32 * u64::from(tick) + u64::from(slot)).wrapping_sub(32 * u64::from(f))
}

// What lies so far above f, unless that is a free slot, which holds 0.
fn at_rise(r: u64, f: u32) -> Option<Neighbour>
    ensures { result ≡ neighbour_at f r }
{
    let tick = f.wrapping_add((r / 32 % 0x1_0000_0000) as u32);
    if tick == 0 {
        None
    } else {
        Some(Neighbour {
            tick,
            slot: (r % 32) as u32,
        })
    }
}

// One walk, with no branch at a slot, finds both neighbours and their slots: what is least far up is the neighbour above, and what is furthest up the one below. To the
// slots, 0 to 19, one more is added that is free. A free slot holds 0, and is what is found where no tick lies above, or none below. A tick that is held is both its
// neighbours.
pub fn neighbours_of(ticks: [u32; 20], f: u32) -> Neighbours
    ensures low { FoundAt ticks (low_of leb (held_ticks ticks) f) result.low }
    ensures high { 0 < f → FoundAt ticks (high_of leb (held_ticks ticks) f) result.high }
    ensures slots { result ≡ neighbours_of ticks f }
{
    let mut least = rise(0, 20, f);
    let mut most = least;
    for (slot, tick) in ticks.iter().enumerate() {
        let r = rise(*tick, slot as u32, f);
        least = least.min(r);
        most = most.max(r);
    }
    let lowest = if least < 32 { least } else { most };
    Neighbours {
        low: at_rise(lowest, f),
        high: at_rise(least, f),
    }
}

// Each neighbour by the distance to the other; where the two are one, all the weight on it.
#[tactic(auto, unfolding(crate::specs::Standing::between))]
pub fn weigh(f: u32, low: u32, high: u32) -> Weights
    ensures { between leb apart f (Some low) (Some high) ≡ Some (record { low = low; high = high; to_low = result.to_low; to_high = result.to_high; width = result.width }) }
{
    if high <= low {
        Weights {
            to_low: 1,
            to_high: 0,
            width: 1,
        }
    } else {
        Weights {
            to_low: f.abs_diff(high),
            to_high: low.abs_diff(f),
            width: low.abs_diff(high),
        }
    }
}
