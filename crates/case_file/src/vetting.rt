// Vetting: from refusal 1 up, each test a step of a state that goes by value.
ghost use Rattle.std.specs.Prelude.{◌≡◌, true, IfOk};
ghost use Rattle.case_model.specs.Case.{read};
ghost use Rattle.case_model.specs.Rows.{unless, row1, row2, row3, row5, row6, row7, row8, refusals, rule_holds, starts_rise};
ghost use Rattle.case_model.specs.Limits.{sections};
ghost use Rattle.case_model.specs.Replies.{accepting, counts};
ghost use Rattle.case_file.specs.Counting.{counts_of};
ghost use Rattle.case_file.specs.EnumNumbers.{number, vetted_reply, found};
ghost use Rattle.case_tests.specs.RowTests.{limits_of};
ghost use Rattle.case_file.specs.VettingStages.{Went, refused_at};

use crate::reason::{Reason, Refusal};
use case_reader::{SECTIONS, node_count, section_size, state_count, step_count};
use case_tests::{
    Limits, first_wrong_binder, first_wrong_node, first_wrong_step, labels_hold, pairs_hold,
    root_closed, rule_holds, starts_rise,
};

// How many states and nodes a file has.
#[derive(Clone, Copy, PartialEq, Eq, Debug)]
pub struct Counts {
    pub states: usize,
    pub nodes: usize,
}

// A file, and the limits that it is vetted within.
#[derive(Clone, Copy)]
pub(crate) struct Vetting<'a> {
    file: &'a [u8],
    limits: Limits,
}

// Rows 1 to 7 within the limits of the caller's case type: how many bytes and how many states there can be.
#[tactic(auto, unfolding(case_model::specs::Replies::accepting, case_model::specs::Replies::replying))]
pub fn vet_within(file: &[u8], longest: usize, states: usize) -> Result<Counts, Refusal>
    ensures { vetted_reply result ≡ accepting (record { longest = longest; states = states }) file.now }
{
    Ok(Vetting::rows(file, Limits { longest, states })?.counts())
}

impl<'a> Vetting<'a> {
    // Rows 1 to 7, in this order.
    #[tactic(auto, unfolding(case_model::specs::Rows::refusals))]
    pub(crate) fn rows(file: &'a [u8], limits: Limits) -> Result<Vetting<'a>, Refusal>
        ensures finds { found result ≡ refusals (limits_of limits) file.now }
        ensures same_file { IfOk result (λ v. v.file ≡ file.entry) }
    {
        Vetting { file, limits }
            .pairs()?
            .labels()?
            .steps()?
            .rule()?
            .starts()?
            .kinds()?
            .binders()?
            .closed()
    }

    pub(crate) fn counts(self) -> Counts
        ensures { counts_of result ≡ counts (read self.entry.file.now) }
    {
        Counts {
            states: state_count(self.file),
            nodes: node_count(self.file),
        }
    }

    // The state, or the refusal unless the test passed.
    fn unless(self, holds: bool, reason: Reason) -> Result<Vetting<'a>, Refusal>
        ensures { Went self.entry result (unless holds (number reason) 0) }
    {
        if holds { Ok(self) } else { Err(reason.into()) }
    }

    // The state, or the refusal at the lowest place that is wrong.
    fn unless_at(self, wrong: Option<usize>, reason: Reason) -> Result<Vetting<'a>, Refusal>
        ensures { Went self.entry result (refused_at (number reason) wrong) }
    {
        match wrong {
            Some(place) => Err(Refusal { reason, place }),
            None => Ok(self),
        }
    }

    fn pairs(self) -> Result<Vetting<'a>, Refusal>
        ensures { Went self.entry result (row1 (limits_of self.entry.limits) self.entry.file.now) }
    {
        self.unless(pairs_hold(self.file, self.limits), Reason::Pairs)
    }

    fn labels(self) -> Result<Vetting<'a>, Refusal>
        ensures { Went self.entry result (row2 (limits_of self.entry.limits) (read self.entry.file.now)) }
    {
        self.unless(labels_hold(self.file, self.limits), Reason::Labels)
    }

    #[tactic(auto, using(crate::proofs::Stages::lowest_found))]
    fn steps(self) -> Result<Vetting<'a>, Refusal>
        ensures { Went self.entry result (row3 self.entry.file.now (read self.entry.file.now)) }
    {
        self.unless(section_size(self.file, 1) % 3 == 0, Reason::Steps)?
            .unless_at(
                first_wrong_step(self.file, step_count(self.file)),
                Reason::Steps,
            )
    }

    fn rule(self) -> Result<Vetting<'a>, Refusal>
        ensures { Went self.entry result (unless (rule_holds self.entry.file.now (read self.entry.file.now)) 4 0) }
    {
        self.unless(rule_holds(self.file), Reason::Rule)
    }

    // The other half of row 4. Both have one number and one place, so no reply tells which came first: what is asked for here does.
    fn starts(self) -> Result<Vetting<'a>, Refusal>
        requires { rule_holds self.file.now (read self.file.now) ≡ true }
        ensures { Went self.entry result (unless (starts_rise (read self.entry.file.now)) 4 0) }
    {
        self.unless(starts_rise(self.file), Reason::Rule)
    }

    #[tactic(auto, using(crate::proofs::Stages::lowest_found))]
    fn kinds(self) -> Result<Vetting<'a>, Refusal>
        ensures { Went self.entry result (row5 (read self.entry.file.now)) }
    {
        self.unless_at(
            first_wrong_node(self.file, node_count(self.file)),
            Reason::Node,
        )
    }

    #[tactic(auto, using(crate::proofs::Stages::lowest_found))]
    fn binders(self) -> Result<Vetting<'a>, Refusal>
        ensures { Went self.entry result (row6 (read self.entry.file.now)) }
    {
        self.unless_at(
            first_wrong_binder(self.file, node_count(self.file)),
            Reason::Binder,
        )
    }

    // The table of free variables has an entry for each node of a rule that row 4 has passed.
    fn closed(self) -> Result<Vetting<'a>, Refusal>
        requires { rule_holds self.file.now (read self.file.now) ≡ true }
        ensures { Went self.entry result (row7 (read self.entry.file.now)) }
    {
        self.unless(root_closed(self.file), Reason::Free)
    }

    pub(crate) fn section(self, section: usize) -> Result<Vetting<'a>, Refusal>
        ensures { Went self.entry result (row8 section sections) }
    {
        self.unless(section < SECTIONS, Reason::Beyond)
    }
}
