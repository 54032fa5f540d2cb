// Internal: the file of a merged case, if there is room for it; serves merging.
#![tactic(auto)]

mod writing;

pub use writing::merge_pair;
