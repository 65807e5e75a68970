// Demand 3: the force is within half a unit and three quarters of A squared of the exact double sum; and what the display shows: statements (specs/) with their proofs (proofs/). There is no code here.
#![tactic(auto)]
