// The entry. It takes any bytes, any work area and any output area.
ghost use Rattle.std.specs.Prelude.{◌≡◌, ◌+◌, ◌≤◌, length};
ghost use Rattle.case_model.specs.Areas.{Laid};
ghost use Rattle.case_model.specs.Judging.{cleared};
ghost use Rattle.case_model.specs.Replies.{counted, written};
ghost use Rattle.case_file.specs.EnumNumbers.{written_reply};
ghost use Rattle.regular_model.specs.SetBytes.{set_bytes};
ghost use Rattle.regular_model.specs.HeldSets.{held_at};
ghost use Rattle.regular_model.specs.Judging.{judging_regular};

use crate::case::{AcceptedLargeCase, LargeCase};
use case_file::{Reason, Refusal};
use regular_engine::{clear, run};
use regular_profile::is_regular;

// A set, in bytes.
const SET: usize = 32;

// The set that lies at a place of the work area, to the front of the output area.
// By its place, and not as a part: the clause speaks of the set held there (`held_at`).
fn write_set(work: &[u8], at: usize, out: &mut [u8])
    requires { (at + 32 ≤ length work.now) × (32 ≤ length out.old) }
    ensures { Laid out.old out.new 0 32 (set_bytes (held_at work.now at)) }
{
    out[..SET].copy_from_slice(&work[at..at + SET]);
}

// Of an accepted case: rows 14, 9 and 13, then the set, after which the work area is cleared.
fn regular_accepted(
    case: AcceptedLargeCase,
    work: &mut [u8],
    out: &mut [u8],
) -> Result<usize, Refusal>
    ensures result_value { written_reply result ≡ counted (judging_regular case.entry.file.now (length work.old) (length out.old)) }
    ensures out_after { out.new ≡ written (judging_regular case.entry.file.now (length work.old) (length out.old)) out.old }
    ensures work_after { work.new ≡ cleared (judging_regular case.entry.file.now (length work.old) (length out.old)) work.old }
{
    if !is_regular(case.file()) {
        return Err(Reason::Form.into());
    }
    if !LargeCase::of(case).has_area(work.len()) {
        return Err(Reason::Work.into());
    }
    if out.len() < SET {
        return Err(Reason::Room.into());
    }
    let at = run(work, case.file());
    write_set(work, at, out);
    clear(work);
    Ok(SET)
}

// Writes the set of the states that hold, or tells the first refusal.
#[tactic(auto, using(case_model::proofs::Replying::refused_too), unfolding(regular_model::specs::Judging::judging_regular))]
pub fn regular(file: &[u8], work: &mut [u8], out: &mut [u8]) -> Result<usize, Refusal>
    ensures result_value { written_reply result ≡ counted (judging_regular file.now (length work.old) (length out.old)) }
    ensures out_after { out.new ≡ written (judging_regular file.now (length work.old) (length out.old)) out.old }
    ensures work_after { work.new ≡ cleared (judging_regular file.now (length work.old) (length out.old)) work.old }
{
    let checked = LargeCase::accept(file);
    let Ok(case) = checked else {
        return Err(checked.unwrap_err());
    };
    regular_accepted(case, work, out)
}
