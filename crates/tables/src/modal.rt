// The tables of the modalities, by doubling.
ghost use Rattle.std.specs.Prelude.{◌≡◌, ◌+◌, ◌≤◌, ◌<◌, length};
ghost use Rattle.flc.specs.Formula as logic;
ghost use Rattle.case_plan.specs.Plans.{decoded, Sized};
ghost use Rattle.tables.specs.Tables.{AtomFilled, edge, sources_by};

use crate::words::{constant, narrow, widen};
use case_plan::Plan;
use case_reader::{Kind, has};

// The states with a step to t by an action of the group.
// A loop, and no fold: the closure would need a clause of its own, on the union so far.
fn sources_by(plan: &Plan, group: usize, t: usize) -> u16
    requires { Sized (decoded plan.now) × (t < (decoded plan.now).states) }
    ensures { result ≡ sources_by (decoded plan.now) group t }
{
    let mut states = 0;
    for a in 0..Kind::ACTIONS {
        if has(group as u64, a) {
            states |= plan.source(a, t);
        }
    }
    states
}

// The set whose entry is filled first: what a modality yields of it is that set itself.
fn edge(some: bool, all: usize) -> usize
    ensures { result ≡ edge some all }
{
    if some { 0 } else { all }
}

// The group's modality, of some step or of all. At the empty set ⟨g⟩ has no state, and a state more adds those with a step to it: what is filled doubles
// upwards. At the set of all states [g] has all, and a state less takes those away: it doubles downwards.
// One loop for both, with a test in it: d and h run along, and a loop for each way, or a closure for the step, would say that twice.
pub(crate) fn modality(work: &mut [u16], plan: &Plan, some: bool, group: usize, c: usize)
    requires { Sized (decoded plan.now) × (c + (decoded plan.now).size ≤ length work.old) }
    ensures { AtomFilled (decoded plan.now) work.old work.new c (logic.modal some group) }
{
    let first = edge(some, plan.size - 1);
    let mut d = c + first;
    constant(work, 1, d, first as u16);
    let mut h = 1;
    for s in 0..plan.states {
        let p = sources_by(plan, group, s);
        if some {
            widen(work, h, d, p);
        } else {
            d -= h;
            narrow(work, h, d, u16::MAX - p);
        }
        h *= 2;
    }
}
