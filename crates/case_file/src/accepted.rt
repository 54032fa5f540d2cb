// An accepted case with its file: what the entries hand on, once the file has been vetted.
ghost use Rattle.std.specs.Prelude.{◌≡◌, ◌*◌, ◌^◌, leb, ltb, IfOk};
ghost use Rattle.case_model.specs.Replies.{accepting, Accepted};
ghost use Rattle.case_file.specs.Counting.{counts_of};

use crate::case::Case;
use crate::reason::Refusal;
use crate::vetting::{Counts, vet_within};

// Of at most so many bytes and states: its file, which no entry vets again.
#[derive(Clone, Copy)]
pub struct CaseWithin<'a, const LONGEST: usize, const STATES: usize> {
    file: &'a [u8],
    counts: Counts,
    ghost accepted: { Accepted (record { longest = LONGEST; states = STATES }) file.now (counts_of counts) },
}

// Within the limits of the entries of docs/SPECIFICATION.md.
pub type AcceptedCase<'a> = CaseWithin<'a, { Case::LONGEST }, { Case::STATES }>;

impl AcceptedCase<'_> {
    // The case without its file.
    pub fn case(self) -> Case
        ensures { result.counts ≡ self.entry.counts }
    {
        Case {
            counts: self.counts,
        }
    }

    // Row 8.
    pub fn has_set(self, set: usize) -> bool
        ensures { result ≡ ltb set (2 ^ self.entry.counts.states) }
    {
        self.case().has_set(set)
    }

    // Row 9.
    pub fn has_area(self, words: usize) -> bool
        ensures { result ≡ leb (2 * self.entry.counts.nodes * 2 ^ self.entry.counts.states) words }
    {
        self.case().has_area(words)
    }
}

impl<'a, const LONGEST: usize, const STATES: usize> CaseWithin<'a, LONGEST, STATES> {
    ghost use Rattle.case_file.specs.EnumNumbers.{checked_reply};

    // The checked constructor: a case only of a file that none of refusals 1 to 7 meets.
    #[tactic(auto, using(case_model::proofs::Replying::accepts))]
    pub fn new(file: &'a [u8]) -> Result<Self, Refusal>
        ensures value { checked_reply result ≡ accepting (record { longest = LONGEST; states = STATES }) file.entry.now }
        ensures same_file { IfOk result (λ x. x.file ≡ file.entry) }
    {
        let counts = vet_within(file, LONGEST, STATES)?;
        Ok(CaseWithin { file, counts })
    }

    pub fn file(self) -> &'a [u8]
        ensures { result ≡ self.entry.file }
    {
        self.file
    }

    pub fn states(self) -> usize
        ensures { result ≡ self.entry.counts.states }
    {
        self.counts.states
    }

    pub fn nodes(self) -> usize
        ensures { result ≡ self.entry.counts.nodes }
    {
        self.counts.nodes
    }
}
