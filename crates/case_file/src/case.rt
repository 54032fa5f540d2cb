// The case type of the entries: its limits, and the checked constructors. A judge with wider limits has a type like this one.
ghost use Rattle.std.specs.Prelude.{◌≡◌, ◌*◌, ◌^◌, leb, ltb, IfOk};
ghost use Rattle.case_model.specs.Limits.{standard};
ghost use Rattle.case_model.specs.Replies.{accepting};

use crate::accepted::{AcceptedCase, CaseWithin};
use crate::reason::Refusal;
use crate::vetting::Counts;
use case_reader::Kind;

// An accepted case: what stands of its file, whatever becomes of the file. One with its file is an `AcceptedCase`.
#[derive(Clone, Copy)]
pub struct Case {
    pub(crate) counts: Counts,
}

impl Case {
    ghost use Rattle.case_file.specs.EnumNumbers.{reply, counted_only, checked_reply};

    // In bytes.
    pub const LONGEST: usize = 6394;

    pub const SECTIONS: usize = case_reader::SECTIONS;

    // In bytes, between two sections.
    pub const PADDING: usize = case_tests::PADDING;

    pub const STATES: usize = 16;

    pub const NODES: usize = case_tests::NODES;

    pub const ACTIONS: usize = Kind::ACTIONS;

    pub const PROPOSITIONS: usize = Kind::PROPOSITIONS;

    pub const VARIABLES: usize = Kind::VARIABLES;

    // The checked constructor: a case only of a file that none of refusals 1 to 7 meets.
    pub fn new(file: &[u8]) -> Result<Case, Refusal>
        ensures { reply counted_only result ≡ accepting standard file.now }
    {
        Ok(Case::accept(file)?.case())
    }

    // The same, with the file: what the entries go on with.
    pub fn accept(file: &[u8]) -> Result<AcceptedCase<'_>, Refusal>
        ensures value { checked_reply result ≡ accepting standard file.entry.now }
        ensures same_file { IfOk result (λ x. x.file ≡ file.entry) }
    {
        CaseWithin::new(file)
    }

    pub fn states(self) -> usize
        ensures { result ≡ self.counts.states }
    {
        self.counts.states
    }

    pub fn nodes(self) -> usize
        ensures { result ≡ self.counts.nodes }
    {
        self.counts.nodes
    }

    // Row 8: is this the number of a set of the case's states? A shift by their count leaves nothing of one; from 64 states on, every number is one.
    pub fn has_set(self, set: usize) -> bool
        ensures { result ≡ ltb set (2 ^ self.counts.states) }
    {
        let n = self.counts.states;
        if n < 64 { set >> n == 0 } else { true }
    }

    // Row 9: are there words enough for two tables a node, each with a word for every set? By a shift too, which no count makes overflow.
    pub fn has_area(self, words: usize) -> bool
        ensures { result ≡ leb (2 * self.counts.nodes * 2 ^ self.counts.states) words }
    {
        let n = self.counts.states;
        let m = self.counts.nodes;
        if n < 63 {
            m <= words >> (n + 1)
        } else {
            m == 0
        }
    }
}
