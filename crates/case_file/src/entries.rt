// The two entries: vetting and opening. Each takes any bytes and any number.
ghost use Rattle.std.specs.Prelude.{◌≡◌};
ghost use Rattle.case_model.specs.Replies.{vetting, Opened};
ghost use Rattle.case_file.specs.EnumNumbers.{vetted_reply};

use crate::case::Case;
use crate::reason::Refusal;
use crate::vetting::{Counts, Vetting};
use case_reader::{section_offset, section_size};
use case_tests::Limits;

// The counts of states and nodes, or the first refusal.
#[tactic(auto, unfolding(case_model::specs::Replies::vetting, case_model::specs::Replies::replying))]
pub fn vet(file: &[u8], section: usize) -> Result<Counts, Refusal>
    ensures { vetted_reply result ≡ vetting file.now section }
{
    let limits = Limits {
        longest: Case::LONGEST,
        states: Case::STATES,
    };
    Ok(Vetting::rows(file, limits)?.section(section)?.counts())
}

// A section as that part of the file, or an empty part where vetting refuses.
// No Result: the public `open` could not fail, so it still can't; `vet` tells the refusal.
pub fn open(file: &[u8], section: usize) -> &[u8]
    ensures { Opened file.entry result section }
{
    let Ok(_) = vet(file, section) else {
        return &file[..0];
    };
    let start = section_offset(file, section);
    let end = start + section_size(file, section);
    &file[start..end]
}
