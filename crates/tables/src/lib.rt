// Internal: tables in a work area, filled one from others, for the crates that compute the nodes of a rule.
#![tactic(auto)]

mod fill;
mod modal;
mod words;

pub use fill::{fill_atom, fill_two};
pub use words::{advance, clear, constant, copy};
