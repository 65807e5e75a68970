// Where a tick or a heading stands among the slots.
ghost use Rattle.std.specs.Prelude.{◌≡◌, ◌≤◌, length, set};
ghost use Rattle.grid.specs.Slots.{slot_of, tick_slot, held_ticks, heading_slot};

// The first slot that holds x; the number of slots where none does.
pub fn place<T: PartialEq + Copy>(slots: &[T], x: T) -> usize
    ensures slot { result ≡ slot_of T.eq slots.now x }
    ensures within { result ≤ length slots.now }
{
    slots.iter().position(|y| *y == x).unwrap_or(slots.len())
}

// The slot of t, or for a new tick the lowest free one.
#[tactic(auto, unfolding(crate::specs::Slots::tick_slot))]
pub fn tick_slot(slots: &[u32], t: u32) -> usize
    ensures slot { result ≡ tick_slot slots.now t }
    ensures within { result ≤ length slots.now }
{
    let at = place(slots, t);
    if at < slots.len() {
        at
    } else {
        place(slots, 0)
    }
}

// The slot of h among those held, or for a new heading the next.
pub fn heading_slot(slots: &[i32], held: usize, h: i32) -> usize
    ensures slot { result ≡ heading_slot slots.now held h }
    ensures within { result ≤ length slots.now }
{
    place(&slots[..held.min(slots.len())], h)
}

// x at a slot, where there is that slot.
pub fn put<T: Copy>(slots: &mut [T], at: usize, x: T)
    ensures { slots.new ≡ set slots.old at x }
{
    if at < slots.len() {
        slots[at] = x;
    }
}

// How many ticks are held.
pub fn ticks_held(ticks: &[u32]) -> usize
    ensures { result ≡ length (held_ticks ticks.now) }
{
    ticks.iter().filter(|t| **t != 0).count()
}
