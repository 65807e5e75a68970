// M-103: one call of an explainer, whoever made it, over any lent slices: statements (specs/) with their proofs (proofs/). There is no code here.
#![tactic(auto)]
