// The start states of the merged case: as a set, in which repeats are one, and from it in rising order.
// Like merged_steps, for one set: what is marked, counted and written differs (a state, a triple), so that a trait for both is no plainer.
ghost use Rattle.std.specs.Prelude.{◌≡◌, ◌+◌, ◌≤◌, length};
ghost use Rattle.case_model.specs.Case.{read};
ghost use Rattle.case_writer.specs.Writing.{Writes};
ghost use Rattle.merged_starts.specs.StartSets.{members, start_set, Small};

use case_file::Case;
use case_reader::{holds, start, start_count};
use case_writer::Output;
use merged_steps::Pair;

// The states that stand for start states.
// A loop, and no fold: the set so far has a name, of which its clause speaks; a fold's closure would need a clause of its own.
pub fn merged_starts(file: &[u8], pair: Pair) -> u16
    requires { Small (read file.now) pair }
    ensures { result ≡ start_set (read file.now) pair }
{
    let mut set = 0u16;
    for i in 0..start_count(file) {
        let s = start(file, i);
        let t = pair.moved(s);
        set |= 1 << t;
    }
    set
}

// How many states a set has.
pub fn count(set: u16) -> usize
    ensures { result ≡ length (members set) }
{
    set.count_ones() as usize
}

// Writes the states of a set in rising order.
pub fn put_starts(set: u16, output: &mut Output)
    requires { output.old.at + length (members set) ≤ length output.old.area.now }
    ensures { Writes output.old output.new (members set) }
{
    for s in 0..Case::STATES {
        if holds(set, s) {
            output.byte(s as u8);
        }
    }
}
