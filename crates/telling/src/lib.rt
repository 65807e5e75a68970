// What the program says first of a refusal: the sentence of its explanation, or what the text gives. Document 02, M-103.
#![tactic(auto)]

pub mod said;
