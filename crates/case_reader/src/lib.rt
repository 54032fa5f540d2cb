// Reading the parts of a case from any bytes, the kinds of its nodes, their free variables and which of them are reached, its steps as a table, and sets of
// states: docs/SPECIFICATION.md, section 1.
#![tactic(auto)]

mod bytes;
mod frees;
mod kinds;
mod parts;
mod reach;
mod states;
mod steps;

pub use bytes::{byte, word};
pub use frees::masks;
pub use kinds::{Atom, Kind, Operator, UnknownKind, is_binder, kind_of, node_holds};
pub use parts::{
    SECTIONS, Triple, label, node, node_count, root, section_offset, section_size, start,
    start_count, state_count, step, step_count,
};
pub use reach::reached;
pub use states::{all_states, has, holds};
pub use steps::{mark, step_rows};
