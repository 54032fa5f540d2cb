// Internal: the file that a law makes of a file, its lengths and its bytes; serves rewriting.
#![tactic(auto)]

mod plan;

pub use plan::Plan;
