// Internal: writes the sections of a case file, packed, to an output area; serves merging and rewriting.
#![tactic(auto)]

mod output;
mod sizes;

pub use output::Output;
pub use sizes::Sizes;
