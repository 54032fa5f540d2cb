// The sets of all nodes, by recursion over nodes with the number falling, as clause 11.5 has it; those of binders by iterates.
// Like engine's recursion: a trait for both would need laws for areas, values and rounds, which are more than these three functions.
ghost use Rattle.case_plan.specs.Plans.{decoded};
ghost use Rattle.regular_engine.specs.Computing.{Refreshable, RefreshedBy, Computable, ComputedBy, Iterable};

use crate::begin::begin;
use case_plan::{Direction, variable};
use case_reader::{Kind, kind_of};
use regular_sets::{Rule, advance, fill};

// Computes the nodes below k that depend only on what is in `act`, and not only on what is in `old`.
// `grown` is the direction in which one binder's set alone has moved since they were last computed; if there is none, they start anew.
// Work and rule are no struct as engine's Blocks: its methods each say that plan and reference stay, which `&Rule` says by itself.
#[cycle(compute_iterate_refresh)]
pub(crate) fn refresh(
    work: &mut [u8],
    rule: &Rule,
    k: usize,
    old: u32,
    act: u32,
    grown: Option<Direction>,
)
    requires { Refreshable rule.now.drive.file.now (decoded rule.now.plan.now) work.old k old act }
    ensures { RefreshedBy rule.now.drive.file.now (decoded rule.now.plan.now) work.old work.new k old act grown }
{
    if k == 0 {
        return;
    }
    let j = k - 1;
    refresh(work, rule, j, old, act, grown);
    let u = rule.plan.scope(j);
    if u | act == act && u | old != old {
        compute(work, rule, j, act, grown);
    }
}

// Computes node j from the lower ones.
#[cycle(compute_iterate_refresh)]
fn compute(work: &mut [u8], rule: &Rule, j: usize, act: u32, grown: Option<Direction>)
    requires { Computable rule.now.drive.file.now (decoded rule.now.plan.now) work.old j act }
    ensures { ComputedBy rule.now.drive.file.now (decoded rule.now.plan.now) work.old work.new j act grown }
{
    match kind_of(rule.plan.node(j)) {
        Kind::Binder(least) => iterate(work, rule, j, act, grown, least),
        _ => fill(work, rule, j),
    }
}

// A binder's iterates, until one is as the next. In the first round the binders within it start anew; then only this binder's set moves, so that those
// which move in the same direction go on from theirs.
#[cycle(compute_iterate_refresh)]
fn iterate(work: &mut [u8], rule: &Rule, j: usize, act: u32, grown: Option<Direction>, least: bool)
    requires { Iterable rule.now.drive.file.now (decoded rule.now.plan.now) work.old j act least }
    ensures { ComputedBy rule.now.drive.file.now (decoded rule.now.plan.now) work.old work.new j act grown }
{
    let x = rule.plan.node(j);
    let n = rule.plan.states;
    let wide = act | variable(x.1);
    begin(work, n, 64 * j, least, grown);
    let mut since: Option<Direction> = None;
    for _ in 0..n {
        refresh(work, rule, j, act, wide, since);
        if !advance(work, 64 * x.2, 64 * j) {
            return;
        }
        since = Some(Direction::of(least));
    }
}
