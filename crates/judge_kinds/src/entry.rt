// The entry. It takes any table, any bytes, any set and any work area.
ghost use Rattle.std.specs.Prelude.{true, ◌≡◌, length};
ghost use Rattle.case_model.specs.Bytes.{pairs_hold};
ghost use Rattle.case_model.specs.Judging.{judging, cleared};
ghost use Rattle.case_model.specs.Limits.{standard};
ghost use Rattle.judge.specs.EnumNumbers.{judged_reply};
ghost use Rattle.judge_kinds_model.specs.Exchange.{exchanged};
ghost use Rattle.judge_kinds_model.specs.Judging.{judging_kinds};

use crate::exchange::exchange;
use case_file::{Case, Reason, Refusal};
use case_tests::{Limits, pairs_hold};
use judge::{Verdict, judge};
use permutations::is_permutation;

// How many kinds there are.
const KINDS: usize = 15;

// Of a file that row 1 does not refuse, so that the copy has room for it. Vetting, the plan and the tables read kinds: a copy spares them all the table.
fn judge_exchanged(
    kinds: &[u8],
    file: &[u8],
    set: u16,
    work: &mut [u16],
) -> Result<Verdict, Refusal>
    requires { pairs_hold standard file.now ≡ true }
    ensures result_value { judged_reply result ≡ judging (exchanged kinds.now file.now) set (length work.old) }
    ensures work_after { work.new ≡ cleared (judging (exchanged kinds.now file.now) set (length work.old)) work.old }
{
    // As long as the longest case: nothing is allocated.
    let mut copy = [0u8; Case::LONGEST];
    exchange(kinds, file, &mut copy);
    let size = file.len();
    judge(&copy[..size], set, work)
}

// Judging of the file with its kinds exchanged, or refusal 15 of what is no table, before the file is looked at.
pub fn judge_kinds(
    kinds: &[u8],
    file: &[u8],
    set: u16,
    work: &mut [u16],
) -> Result<Verdict, Refusal>
    ensures result_value { judged_reply result ≡ judging_kinds kinds.now file.now set (length work.old) }
    ensures work_after { work.new ≡ cleared (judging_kinds kinds.now file.now set (length work.old)) work.old }
{
    if !is_permutation(kinds, KINDS) {
        return Err(Reason::Table.into());
    }
    // Written out as in case_file's `vet`: a constant for both would be one more public name, of two numbers that have names.
    let limits = Limits {
        longest: Case::LONGEST,
        states: Case::STATES,
    };
    if !pairs_hold(file, limits) {
        return Err(Reason::Pairs.into());
    }
    judge_exchanged(kinds, file, set, work)
}
