// What explains a refusal: whether it is the one that was stated, and which field or which lines stand behind it. Document 02, M-103.
#![tactic(auto)]

pub mod explanation;
