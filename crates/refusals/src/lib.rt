// Why something is refused: each reason by name, and by the number that stands for it wherever a refusal is written down (docs/NUMBERS.md).
#![tactic(auto)]

pub mod refusal;
