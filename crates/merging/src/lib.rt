// Merging two alike states of a case: docs/SPECIFICATION.md, section 4, with refusals 1 to 8, 10 and 13.
#![tactic(auto)]

mod merging;

pub use merging::merge;
