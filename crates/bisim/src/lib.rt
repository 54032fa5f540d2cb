// Classes of alike states: docs/SPECIFICATION.md, clause 4.3, with refusals 1 to 7 and 13.
#![tactic(auto)]

mod entries;

pub use entries::classes;
