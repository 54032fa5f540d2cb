// The steps between states below 16 as a relation in 128 rows of masks: bit t of row 8s + a is the step (s, a, t). Other steps have no place in it.
// Turned round, each step goes from its end to its start, and a row has the states with a step to one.
// One array, and no array of arrays: the definition `relation`, which theorems stand on, has row 8s + a; and arrays, since nothing is allocated.
ghost use Rattle.std.specs.Prelude.{◌≡◌, ◌<◌};
ghost use Rattle.case_model.specs.Case.{read};
ghost use Rattle.case_reader.specs.Read.{triple};
ghost use Rattle.case_reader.specs.StepRows.{turned_if, steps_read, row_of, bit_of, marked, StepRows};

use crate::parts::{Triple, step, step_count};

// A step, or the step turned round.
fn turned_if(x: Triple, turned: bool) -> Triple
    ensures { triple result ≡ turned_if turned (triple x) }
{
    if turned { Triple(x.2, x.1, x.0) } else { x }
}

// The row of a step.
fn row_of(x: Triple) -> usize
    ensures { result ≡ row_of (triple x) }
{
    8 * (x.0 % 16) + x.1 % 8
}

// Its bit, 0 if it has no place.
fn bit_of(x: Triple) -> u16
    ensures { result ≡ bit_of (triple x) }
{
    let inside = (x.0 < 16) & (x.1 < 8) & (x.2 < 16);
    let t = x.2 % 16;
    if inside { 1u16 << t } else { 0 }
}

// Marks one step more.
#[tactic(auto, unfolding(crate::specs::StepRows::marked))]
pub fn mark(rows: &mut [u16; 128], x: Triple)
    ensures { rows.new ≡ marked rows.old (triple x) }
{
    rows[row_of(x)] |= bit_of(x);
}

// The steps of a file, from the last to the first; turned round if asked.
// A flag, as in `steps_read`, which the contract cites: a closure that turns a step would need a clause of what it does.
pub fn step_rows(file: &[u8], turned: bool) -> [u16; 128]
    ensures { StepRows (steps_read turned (read file.now).steps) result }
{
    let mut rows = [0u16; 128];
    for i in (0..step_count(file)).rev() {
        mark(&mut rows, turned_if(step(file, i), turned));
    }
    rows
}
