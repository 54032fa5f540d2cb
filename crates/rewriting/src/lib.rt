// Rewriting one node of the rule by one of the nine laws: docs/SPECIFICATION.md, section 5, with refusals 1 to 7 and 11 to 13.
#![tactic(auto)]

mod rewriting;

pub use rewriting::rewrite;
