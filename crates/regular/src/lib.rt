// Judging regular rules of large drives: what the rule yields of all states, one set for each node in the lent byte area. docs/SPECIFICATION.md, section 12.
#![tactic(auto)]

mod case;
mod entry;

pub use case::{AcceptedLargeCase, LargeCase};
pub use entry::regular;
