// All that is promised: this crate stands on every crate of statements (docs/PROMISES.md has them in reading order), so that `rt check` in its folder proves each of them. There is no code here.
#![tactic(auto)]
