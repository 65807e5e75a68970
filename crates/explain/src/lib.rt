// Why a text is refused: it is read again with the reader's own step, and what is remembered on the way says which lines stand against each other. Document 02, M-103;
// specs/Model.antt says what each call does.
#![tactic(auto)]

pub mod explainer;
