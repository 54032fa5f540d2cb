// Internal: the steps of a merged case as rows, counted and written; serves merged_starts, merged_file and merging.
#![tactic(auto)]

mod rows;

pub use rows::{Pair, count, merged_rows, put_steps};
