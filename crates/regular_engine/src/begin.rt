// What a binder's set begins with.
ghost use Rattle.std.specs.Prelude.{◌+◌, ◌≤◌, length};
ghost use Rattle.regular_model.specs.HeldSets.{held_at, Stored};
ghost use Rattle.regular_engine.specs.Computing.{begins};

use case_plan::Direction;
use regular_sets::constant;

// The old set if only a binder that moves in the same direction has moved since it was computed, else no states, or all.
pub(crate) fn begin(work: &mut [u8], n: usize, c: usize, least: bool, grown: Option<Direction>)
    requires { (n ≤ 256) × (c + 32 ≤ length work.old) }
    ensures { Stored work.old work.new c (begins least grown n (held_at work.old c)) }
{
    if !Direction::of(least).goes_on(grown) {
        constant(work, n, !least, c);
    }
}
