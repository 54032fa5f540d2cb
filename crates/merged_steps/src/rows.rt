// The step relation of the merged case, as the rows of case_reader's table: bit t of row 8s + a is the step (s, a, t), which is bit x % 16 of row x / 16 for
// the triple with the number x.
ghost use Rattle.std.specs.Prelude.{◌≡◌, ◌+◌, ◌*◌, ◌/◌, ◌%◌, ◌≤◌, ◌<◌, min, max, length};
ghost use Rattle.case_model.specs.Case.{flat};
ghost use Rattle.case_model.specs.Merging.{moved, moved_steps, is_step, in_order};
ghost use Rattle.case_reader.specs.StepRows.{relation, StepRows};
ghost use Rattle.case_writer.specs.Writing.{Writes};

use case_reader::{Triple, holds, mark};
use case_writer::Output;

// Two states: the lower is kept, the higher removed.
#[derive(Clone, Copy)]
pub struct Pair {
    pub kept: usize,
    pub removed: usize,
}

impl Pair {
    pub fn of(s: usize, t: usize) -> Pair
        ensures { (result.kept ≡ min s t) × (result.removed ≡ max s t) }
    {
        Pair {
            kept: s.min(t),
            removed: s.max(t),
        }
    }

    // The number of the state that stands for s.
    pub fn moved(self, s: usize) -> usize
        ensures { result ≡ moved self.kept self.removed s }
    {
        if s == self.removed {
            self.kept
        } else if self.removed < s {
            s - 1
        } else {
            s
        }
    }
}

// The triple with the number x.
// No From: the type is case_reader's, and the number is one among 16 states and 8 actions alone.
fn numbered(x: usize) -> Triple
    ensures { (result.0 ≡ x / 128) × (result.1 ≡ x / 16 % 8) × (result.2 ≡ x % 16) }
{
    Triple(x / 128, x / 16 % 8, x % 16)
}

// Is the triple with the number x a step?
fn is_step(rows: &[u16; 128], x: usize) -> bool
    requires { x < 2048 }
    ensures { result ≡ is_step (relation rows.now) x }
{
    holds(rows[x / 16], x % 16)
}

// The steps of the merged case, from those of the case: renumbered, but for those that leave the removed state.
pub fn merged_rows(rows: &[u16; 128], pair: Pair) -> [u16; 128]
    ensures { StepRows (moved_steps pair.kept pair.removed (in_order 2048 (relation rows.now))) result }
{
    let mut merged = [0u16; 128];
    for x in 0..2048 {
        let t = numbered(x);
        if is_step(rows, x) && t.0 != pair.removed {
            mark(&mut merged, Triple(pair.moved(t.0), t.1, pair.moved(t.2)));
        }
    }
    merged
}

// How many steps there are.
pub fn count(rows: &[u16; 128]) -> usize
    ensures { result ≡ length (in_order 2048 (relation rows.now)) }
{
    rows.iter().map(|row| row.count_ones() as usize).sum()
}

// Writes the steps in rising order.
pub fn put_steps(rows: &[u16; 128], output: &mut Output)
    requires { output.old.at + 3 * length (in_order 2048 (relation rows.now)) ≤ length output.old.area.now }
    ensures { Writes output.old output.new (flat (in_order 2048 (relation rows.now))) }
{
    for x in 0..2048 {
        if is_step(rows, x) {
            output.triple(numbered(x));
        }
    }
}
