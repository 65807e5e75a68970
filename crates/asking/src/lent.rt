// What the bench lends its calls.

// How many cells and flags: the first ones.
#[derive(Clone, Copy)]
pub struct Lent {
    pub cells: usize,
    pub flags: usize,
}
