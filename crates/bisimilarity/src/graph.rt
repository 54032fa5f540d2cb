// The state table of a case as far as its rule looks, read from the file once.
ghost use Rattle.std.specs.Prelude.{◌≡◌, ◌≤◌, ℕ, get_or};
ghost use Rattle.std.specs.Int.Bits.{bit_and};
ghost use Rattle.case_model.specs.Case.{read};
ghost use Rattle.case_model.specs.Limits.{most_states};
ghost use Rattle.case_model.specs.Valid.{ValidTable};
ghost use Rattle.case_reader.specs.StepRows.{StepRows};
ghost use Rattle.bisimilarity.specs.Successors.{Within};

use case_file::AcceptedCase;
use case_reader::label;
use std::array;
use vocabulary::looked;

// Of at most 16 states, with no step to another number.
// Arrays of the most states that there can be, with their count beside them: nothing is allocated.
#[derive(Clone, Copy)]
pub struct Graph {
    pub(crate) states: usize,
    // of each label the propositions that are looked at
    pub(crate) labels: [usize; 16],
    // the actions that are looked at
    pub(crate) acts: usize,
    // the states after a step of s by action a, at 8s + a
    pub(crate) successors: [u16; 128],
    ghost few: { states ≤ most_states },
    ghost within: { Within states successors },
}

// The propositions of each state that are in the set, none past the last state.
fn labels(file: &[u8], props: usize) -> [usize; 16]
    requires { ValidTable most_states (read file.now) }
    ensures { (s : ℕ) → get_or result s 0 ≡ bit_and (get_or (read file.now).labels s 0) props }
{
    array::from_fn(|s| label(file, s) & props)
}

impl Graph {
    ghost use Rattle.bisimilarity.specs.Graphs.{Drawn};

    // The graph of a case, whose steps have been read into rows.
    pub fn draw(case: AcceptedCase<'_>, steps: [u16; 128]) -> Graph
        requires { StepRows (read case.file.now).steps steps }
        ensures { Drawn (read case.entry.file.now) result }
    {
        let states = case.states();
        let file = case.file();
        let seen = looked(file);
        let labels = labels(file, seen.props);
        Graph {
            states,
            labels,
            acts: seen.acts,
            successors: steps,
        }
    }
}
