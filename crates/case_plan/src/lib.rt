// Internal: what judging needs of a case, worked out once, for the crates that fill tables.
#![tactic(auto)]

mod moves;
mod parts;
mod planning;
mod plans;

pub use moves::{Direction, variable};
pub use planning::{plan, plan_rule};
pub use plans::{EVERY, Plan};
