// Internal: what each of the nine laws does at a node; serves rewriting and rewritten_file.
#![tactic(auto)]

mod shapes;

pub use shapes::{Shape, shape_at};
