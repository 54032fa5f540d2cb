// The entry. It takes any bytes, any set and any work area.
ghost use Rattle.std.specs.Prelude.{◌≡◌, length};
ghost use Rattle.case_model.specs.Judging.{judging, cleared};
ghost use Rattle.case_plan.specs.Plans.{decoded};
ghost use Rattle.engine.specs.Asking.{Asked};
ghost use Rattle.judge.specs.PlanVerdicts.{plan_verdict};
ghost use Rattle.judge.specs.EnumNumbers.{judged_reply, answer};

use case_file::{AcceptedCase, Case, Reason, Refusal};
use case_plan::{Plan, plan};
use engine::run;
use tables::clear;

#[derive(Clone, Copy, PartialEq, Eq, Debug)]
pub struct Verdict {
    pub set: u16,
    pub rounds: usize,
}

// The root's function at the set, and its rounds.
fn answer(work: &mut [u16], plan: &Plan, set: u16) -> Verdict
    requires { Asked (decoded plan.now) set (length work.old) }
    ensures { answer result ≡ plan_verdict (decoded plan.now) set }
{
    let rounds = run(work, plan);
    let at = plan.root * plan.size + set as usize;
    let value = work[at];
    Verdict { set: value, rounds }
}

// Of an accepted case: rows 8 and 9, then the answer, after which the area is cleared.
fn judge_accepted(case: AcceptedCase, set: u16, work: &mut [u16]) -> Result<Verdict, Refusal>
    ensures result_value { judged_reply result ≡ judging case.entry.file.now set (length work.old) }
    ensures work_after { work.new ≡ cleared (judging case.entry.file.now set (length work.old)) work.old }
{
    if !case.has_set(set as usize) {
        return Err(Reason::Beyond.into());
    }
    if !case.has_area(work.len()) {
        return Err(Reason::Work.into());
    }
    let plan = plan(case.file());
    let verdict = answer(work, &plan, set);
    clear(work);
    Ok(verdict)
}

// The root's function at a set, and its rounds, or the first refusal.
#[tactic(auto, using(case_model::proofs::Replying::refused_too), unfolding(case_model::specs::Judging::judging))]
pub fn judge(file: &[u8], set: u16, work: &mut [u16]) -> Result<Verdict, Refusal>
    ensures result_value { judged_reply result ≡ judging file.now set (length work.old) }
    ensures work_after { work.new ≡ cleared (judging file.now set (length work.old)) work.old }
{
    let checked = Case::accept(file);
    let Ok(case) = checked else {
        return Err(checked.unwrap_err());
    };
    judge_accepted(case, set, work)
}
