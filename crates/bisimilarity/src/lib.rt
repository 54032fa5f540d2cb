// Internal: which states of an accepted case are alike, by refinement; serves bisim and merging.
#![tactic(auto)]

mod graph;
mod refinement;

pub use graph::Graph;
