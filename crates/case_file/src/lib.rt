// The case file: vetting it, and opening a section; and the refusals of every entry. docs/SPECIFICATION.md, sections 1 and 7, and refusals 1 to 8.
#![tactic(auto)]

mod accepted;
mod case;
mod entries;
mod reason;
mod vetting;

pub use accepted::{AcceptedCase, CaseWithin};
pub use case::Case;
pub use entries::{open, vet};
pub use reason::{Reason, Refusal};
pub use vetting::{Counts, vet_within};
