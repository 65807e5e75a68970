// What stands behind a refusal, in a mate's words: a sentence for each kind, put into a lent slice. Document 02, M-103.
#![tactic(auto)]

pub mod sentences;
