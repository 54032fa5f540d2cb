// The case type of this judge: its limits, and the checked constructors.
ghost use Rattle.std.specs.Prelude.{◌≡◌, ◌*◌, leb, IfOk};
ghost use Rattle.case_model.specs.Replies.{accepting};
ghost use Rattle.case_file.specs.EnumNumbers as files;
ghost use Rattle.regular_model.specs.Judging.{large};

use case_file::{CaseWithin, Counts, Refusal};

// An accepted case: what stands of its file, whatever becomes of the file. One with its file is an `AcceptedLargeCase`.
// A struct like case_file's Case, and not one with it: limits are constants of each, and each constructor's contract names its own.
#[derive(Clone, Copy)]
pub struct LargeCase {
    counts: Counts,
}

// Within the limits of this judge.
pub type AcceptedLargeCase<'a> = CaseWithin<'a, { LargeCase::LONGEST }, { LargeCase::STATES }>;

impl LargeCase {
    ghost use Rattle.regular.specs.EnumNumbers.{checked_reply, large_counts};

    // In bytes.
    pub const LONGEST: usize = 65535;

    pub const STATES: usize = 256;

    // The checked constructor: a case only of a file that none of refusals 1 to 7 meets within these limits.
    pub fn new(file: &[u8]) -> Result<LargeCase, Refusal>
        ensures { checked_reply result ≡ accepting large file.now }
    {
        Ok(LargeCase::of(LargeCase::accept(file)?))
    }

    // The same, with the file: what the entry goes on with.
    pub fn accept(file: &[u8]) -> Result<AcceptedLargeCase<'_>, Refusal>
        ensures value { files.checked_reply result ≡ accepting large file.entry.now }
        ensures same_file { IfOk result (λ x. x.file ≡ file.entry) }
    {
        CaseWithin::new(file)
    }

    // The case without its file.
    pub fn of(case: AcceptedLargeCase) -> LargeCase
        ensures { large_counts result ≡ files.case_counts case.entry }
    {
        LargeCase {
            counts: Counts {
                states: case.states(),
                nodes: case.nodes(),
            },
        }
    }

    // Row 9: are there 64 bytes for each node? By a division, which no count makes overflow.
    pub fn has_area(self, bytes: usize) -> bool
        ensures { result ≡ leb (64 * self.counts.nodes) bytes }
    {
        self.counts.nodes <= bytes / 64
    }
}
