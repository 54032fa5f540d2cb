// What a binder's table begins with.
ghost use Rattle.std.specs.Prelude.{cond, ◌≡◌, ◌+◌, ◌-◌, ◌*◌, ◌≤◌, length};
ghost use Rattle.case_model.specs.Areas.{Filled};
ghost use Rattle.case_plan.specs.Plans.{decoded};
ghost use Rattle.engine.specs.Blocks.{block};
ghost use Rattle.engine.specs.Moves.{begins};

use crate::blocks::Blocks;
use case_plan::Direction;
use tables::constant;

// The value of approximant 0: no states for μ, all for ν.
fn start(least: bool, size: usize) -> u16
    requires { (1 ≤ size) × (size ≤ 65536) }
    ensures { result ≡ cond least 0 (size - 1) }
{
    if least { 0 } else { (size - 1) as u16 }
}

impl Blocks<'_> {
    // The old table of binder j if only a binder that moves in the same direction has moved since it was computed, else approximant 0.
    // `grown` is that direction, if it is known.
    pub(crate) fn begin(&mut self, j: usize, least: bool, grown: Option<Direction>)
        requires { let size = self.old.plan.now.size in (1 ≤ size) × (size ≤ 65536) × (j * size + size ≤ length self.old.work.now) }
        ensures is { let p = decoded self.old.plan.now in
            Filled self.old.work.now self.new.work.now (j * p.size) p.size (begins least grown p.size (block p self.old.work.now j)) }
        ensures plan { self.new.plan ≡ self.old.plan }
        ensures same_reference { self.new.work.ghost_name ≡ self.old.work.ghost_name }
    {
        let size = self.plan.size;
        if !Direction::of(least).goes_on(grown) {
            constant(self.work, size, j * size, start(least, size));
        }
    }
}
