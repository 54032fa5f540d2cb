// Internal: what the rule of an accepted case looks at; serves bisimilarity.
#![tactic(auto)]

mod looking;

pub use looking::{Vocabulary, looked};
