// Judging: the root's function at a set, and its rounds, by tables of 2^n words in the lent work area. docs/SPECIFICATION.md, section 3.
#![tactic(auto)]

mod entry;

pub use entry::{Verdict, judge};
