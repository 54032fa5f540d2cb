// The entry that writes the classes.
ghost use Rattle.std.specs.Prelude.{◌≡◌, cond, ◌≤◌, ◌<◌, leb, length};
ghost use Rattle.flc.specs.Sets.{first};
ghost use Rattle.case_model.specs.Areas.{Laid};
ghost use Rattle.case_model.specs.Bytes.{list_of};
ghost use Rattle.case_model.specs.Limits.{most_states};
ghost use Rattle.case_model.specs.Merging.{classing};
ghost use Rattle.case_model.specs.Replies.{counted, written};
ghost use Rattle.bisimilarity.specs.Relations.{related};
ghost use Rattle.case_file.specs.EnumNumbers.{written_reply};

use bisimilarity::Graph;
use case_file::{AcceptedCase, Case, Reason, Refusal};
use case_reader::{has, step_rows};

// The lowest state that row s has, s itself if none is lower.
fn lowest(rows: &[u16; 16], s: usize) -> usize
    requires { s < most_states }
    ensures { result ≡ first (related rows.now s) 0 s }
{
    let row = rows[s] as u64;
    (0..s).find(|t| has(row, *t)).unwrap_or(s)
}

// By index: s is a state as well as a place.
fn write(rows: &[u16; 16], n: usize, out: &mut [u8])
    requires { (n ≤ most_states) × (n ≤ length out.old) }
    ensures { Laid out.old out.new 0 n (list_of n (λ s. first (related rows.now s) 0 s)) }
{
    for s in 0..n {
        out[s] = lowest(rows, s) as u8;
    }
}

// The classes of an accepted case.
fn write_classes(case: AcceptedCase, out: &mut [u8]) -> Result<usize, Refusal>
    ensures result_value { written_reply result ≡ counted (classing case.entry.file.now (length out.old)) }
    ensures out_after { out.new ≡ written (classing case.entry.file.now (length out.old)) out.old }
{
    let n = case.states();
    if out.len() < n {
        return Err(Reason::Room.into());
    }
    let graph = Graph::draw(case, step_rows(case.file(), false));
    write(&graph.alike_rows(), n, out);
    Ok(n)
}

// Writes a byte for each state: the lowest that is alike to it.
#[tactic(auto, using(case_model::proofs::Replying::refused_too), unfolding(case_model::specs::Merging::classing))]
pub fn classes(file: &[u8], out: &mut [u8]) -> Result<usize, Refusal>
    ensures result_value { written_reply result ≡ counted (classing file.now (length out.old)) }
    ensures out_after { out.new ≡ written (classing file.now (length out.old)) out.old }
{
    let checked = Case::accept(file);
    let Ok(case) = checked else {
        return Err(checked.unwrap_err());
    };
    write_classes(case, out)
}
