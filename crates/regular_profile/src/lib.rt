// Internal: which rules are regular, for the judge of large drives. docs/SPECIFICATION.md, clauses 12.2 and 12.3.
#![tactic(auto)]

mod profile;

pub use profile::is_regular;
