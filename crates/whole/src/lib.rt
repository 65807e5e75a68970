// Whole numbers: what every number of the box goes through. Most of this crate is in specs/ and proofs/, for the crates above to cite: ℤ as a ring with a
// solver for its equations, its order and magnitudes, complex numbers, fractions, sums, and rounding. The functions round, and put a
// sign before a size.
#![tactic(auto)]

pub mod rounding;
pub mod sign;
