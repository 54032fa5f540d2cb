// Internal: the start states of a merged case as a set, counted and written; serves merged_file.
#![tactic(auto)]

mod starts;

pub use starts::{count, merged_starts, put_starts};
