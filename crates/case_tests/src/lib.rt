// Internal: the tests of refusals 1 to 7, each over any bytes; serves case_file and judge_kinds.
#![tactic(auto)]

mod limits;
mod pairs;
mod tests;

pub use limits::{Limits, NODES, PADDING};
pub use pairs::pairs_hold;
pub use tests::{
    first_wrong_binder, first_wrong_node, first_wrong_step, labels_hold, root_closed, rule_holds,
    starts_rise,
};
