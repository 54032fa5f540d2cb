// Merging: the lower of two alike states is kept and stands for both, the higher is removed.
ghost use Rattle.case_model.specs.Book.{merges};
ghost use Rattle.case_model.specs.Run.{Promised};
ghost use Rattle.case_file.specs.EnumNumbers.{written_reply};

use bisimilarity::Graph;
use case_file::{AcceptedCase, Case, Reason, Refusal};
use case_reader::{holds, step_rows};
use merged_file::merge_pair;
use merged_steps::Pair;

// Merges s and t of an accepted case.
fn merge_states(case: AcceptedCase, s: usize, t: usize, out: &mut [u8]) -> Result<usize, Refusal>
    ensures { Promised case.entry.file.now (record { asked = merges s t; before = out.old; after = out.new; told = written_reply result }) }
{
    let n = case.states();
    let inside = (s < n) & (t < n);
    if !inside {
        return Err(Reason::Beyond.into());
    }
    let steps = step_rows(case.file(), false);
    let rows = Graph::draw(case, steps).alike_rows();
    let mergeable = (s != t) & holds(rows[s], t);
    if !mergeable {
        return Err(Reason::Unlike.into());
    }
    merge_pair(case, Pair::of(s, t), &steps, out)
}

// Merges s and t, given in either order, and writes the new case.
#[tactic(auto, using(case_model::proofs::Replying::refused_too), unfolding(case_model::specs::Merging::merging))]
pub fn merge(file: &[u8], s: usize, t: usize, out: &mut [u8]) -> Result<usize, Refusal>
    ensures { Promised file.now (record { asked = merges s t; before = out.old; after = out.new; told = written_reply result }) }
{
    let checked = Case::accept(file);
    let Ok(case) = checked else {
        return Err(checked.unwrap_err());
    };
    merge_states(case, s, t, out)
}
