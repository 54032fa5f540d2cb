// Internal: the tables of all nodes of a rule, from a plan of its case. It serves the entries that judge.
#![tactic(auto)]

mod begin;
mod blocks;
mod nodes;
mod refresh;
mod rule;

pub use rule::run;
