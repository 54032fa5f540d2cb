// Judging a case whose kinds have other numbers, by a table that the caller lends. docs/SPECIFICATION.md, section 13.
#![tactic(auto)]

mod entry;
mod exchange;

pub use entry::judge_kinds;
