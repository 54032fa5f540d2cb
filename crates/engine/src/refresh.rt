// The tables of all nodes, by recursion over nodes with the number falling (docs/SPECIFICATION.md, clause 11.5); those of binders by approximants.
ghost use Rattle.std.specs.Prelude.{◌≡◌};
ghost use Rattle.case_plan.specs.Plans.{decoded};
ghost use Rattle.engine.specs.Computing.{Refreshable, Refreshed, Computable, Computed, Roundable, Rounded, Iterable, Iterated};

use crate::blocks::Blocks;
use case_plan::{Direction, variable};
use case_reader::{Kind, kind_of};
use tables::advance;

// A binder: its node, its variable and its body.
#[derive(Clone, Copy)]
pub struct Binder {
    pub node: usize,
    pub variable: usize,
    pub body: usize,
}

impl Blocks<'_> {
    // Computes the nodes below k that depend only on what is in `act`, and not only on what is in `old`.
    // `grown` is the direction in which one binder's table alone has moved since they were last computed.
    // Why it is right: a node names lower ones only, and depends on what these depend on, so that they are right when its turn comes; one that
    // depends only on the old is right already; and one that depends on more than what is active is used by none that is computed.
    // Four values beside self, and no struct: each call has others.
    #[cycle(compute_refresh_round_rounds)]
    pub(crate) fn refresh(&mut self, k: usize, old: u32, act: u32, grown: Option<Direction>)
        requires { Refreshable (decoded self.old.plan.now) self.old.work.now k old act grown }
        ensures is { Refreshed (decoded self.old.plan.now) self.old.work.now self.new.work.now k old act }
        ensures plan { self.new.plan ≡ self.old.plan }
        ensures same_reference { self.new.work.ghost_name ≡ self.old.work.ghost_name }
    {
        let Some(j) = k.checked_sub(1) else {
            return;
        };
        let scope = self.plan.scope(j);
        self.refresh(j, old, act, grown);
        if scope | act == act && scope | old != old {
            self.compute(j, act, grown);
        }
    }

    // Computes node j from the lower ones: a binder's approximants until one is as the next. The answer is how many it took.
    #[cycle(compute_refresh_round_rounds)]
    pub(crate) fn compute(&mut self, j: usize, act: u32, grown: Option<Direction>) -> usize
        requires { Computable (decoded self.old.plan.now) self.old.work.now j act grown }
        ensures is { Computed (decoded self.old.plan.now) self.old.work.now self.new.work.now j act grown result }
        ensures plan { self.new.plan ≡ self.old.plan }
        ensures same_reference { self.new.work.ghost_name ≡ self.old.work.ghost_name }
    {
        let x = self.plan.node(j);
        let Kind::Binder(least) = kind_of(x) else {
            self.fill(j);
            return 0;
        };
        self.begin(j, least, grown);
        let binder = Binder {
            node: j,
            variable: x.1,
            body: x.2,
        };
        // The round that changes nothing comes after as many as there can be.
        let most = self.plan.limit + 1;
        self.rounds(binder, act, Direction::of(least), most)
    }

    // Rounds of a binder from the table that it has, which moves in the direction `way`, until one changes nothing, but at most so many.
    // The answer is how many changed something. In the first round the binders within it start anew, for nothing is known of their tables; then
    // only this binder's table moves, so that those which move in the same direction go on from theirs.
    #[cycle(compute_refresh_round_rounds)]
    pub(crate) fn rounds(&mut self, x: Binder, act: u32, way: Direction, most: usize) -> usize
        requires { Iterable (decoded self.old.plan.now) self.old.work.now x act way }
        ensures is { Iterated (decoded self.old.plan.now) self.old.work.now self.new.work.now x act most result }
        ensures plan { self.new.plan ≡ self.old.plan }
        ensures same_reference { self.new.work.ghost_name ≡ self.old.work.ghost_name }
    {
        let mut moved = None;
        for r in 0..most {
            let changed = self.round(x, act, moved);
            if !changed {
                return r;
            }
            moved = Some(way);
        }
        most
    }

    // One round of a binder: the nodes that depend on its variable are computed, then its table becomes its body's. Did that change anything?
    // Why it is right: the nodes below are computed with the binder's table for its variable, so that the body's table is what the body makes of it.
    #[cycle(compute_refresh_round_rounds)]
    pub(crate) fn round(&mut self, x: Binder, act: u32, moved: Option<Direction>) -> bool
        requires { Roundable (decoded self.old.plan.now) self.old.work.now x act moved }
        ensures is { Rounded (decoded self.old.plan.now) self.old.work.now self.new.work.now x act result }
        ensures plan { self.new.plan ≡ self.old.plan }
        ensures same_reference { self.new.work.ghost_name ≡ self.old.work.ghost_name }
    {
        let size = self.plan.size;
        let wide = act | variable(x.variable);
        self.refresh(x.node, act, wide, moved);
        advance(self.work, size, x.body * size, x.node * size)
    }
}
