// The file of the merged case: the labels without the removed one, the steps of the rows, the rule as it was, the start states of the set.
ghost use Rattle.std.specs.Prelude.{◌≡◌, suc, ◌+◌, ◌-◌, ◌≤◌, length};
ghost use Rattle.case_model.specs.Areas.{Laid};
ghost use Rattle.case_model.specs.Replies.{counted, written};
ghost use Rattle.case_file.specs.EnumNumbers.{case_counts, written_reply};
ghost use Rattle.case_writer.specs.Writing.{Writes, whole};
ghost use Rattle.merged_file.specs.Merged.{Named, Measured, new_file, fitting};

use case_file::{AcceptedCase, Reason, Refusal};
use case_reader::{section_offset, section_size};
use case_writer::{Output, Sizes};
use merged_starts::{merged_starts, put_starts};
use merged_steps::{Pair, count, merged_rows, put_steps};

// The head, the labels without the removed one, the steps, the rule and the start states.
// Six values, that `merge_pair` alone hands on: a struct of them would be made once and taken apart here.
fn put_merged(
    file: &[u8],
    pair: Pair,
    rows: &[u16; 128],
    starts: u16,
    sizes: Sizes,
    output: &mut Output,
)
    requires { Measured file.now pair rows.now starts sizes × (output.old.at + whole sizes ≤ length output.old.area.now) }
    ensures { Writes output.old output.new (new_file file.now pair) }
{
    let labels = section_offset(file, 0);
    let removed = labels + pair.removed;
    let above = removed + 1;
    let rule = section_offset(file, 2);
    output.pairs(&sizes.each());
    output.part(&file[labels..removed]);
    output.part(&file[above..above + sizes.labels - pair.removed]);
    put_steps(rows, output);
    output.part(&file[rule..rule + sizes.rule]);
    put_starts(starts, output);
}

// The same at the start of an area.
// Like rewritten_file's `write`: a few lines, which a function with a closure for the second would not make fewer.
#[tactic(auto, using(case_writer::proofs::Runs::written_first))]
fn write_merged(
    file: &[u8],
    pair: Pair,
    rows: &[u16; 128],
    starts: u16,
    sizes: Sizes,
    out: &mut [u8],
)
    requires { Measured file.now pair rows.now starts sizes × (whole sizes ≤ length out.old) }
    ensures { Laid out.old out.new 0 (length (new_file file.now pair)) (new_file file.now pair) }
{
    let mut output = Output::new(out);
    put_merged(file, pair, rows, starts, sizes, &mut output);
}

// How many of n labels are left: those below and those above the removed one. Where that is n, all are.
fn labels_left(n: usize, removed: usize) -> usize
    requires { removed ≤ n }
    ensures { result ≡ removed + (n - suc removed) }
{
    if removed < n { n - 1 } else { n }
}

// Merges a pair of an accepted case, whose steps have been read into rows, if there is room.
pub fn merge_pair(
    case: AcceptedCase,
    pair: Pair,
    before: &[u16; 128],
    out: &mut [u8],
) -> Result<usize, Refusal>
    requires { Named case.file.now (case_counts case) pair before.now }
    ensures result_value { written_reply result ≡ counted (fitting case.entry.file.now pair (length out.old)) }
    ensures out_after { out.new ≡ written (fitting case.entry.file.now pair (length out.old)) out.old }
{
    let file = case.file();
    let rows = merged_rows(before, pair);
    let starts = merged_starts(file, pair);
    let rule = section_size(file, 2);
    let sizes = Sizes {
        labels: labels_left(case.states(), pair.removed),
        steps: 3 * count(&rows),
        rule,
        starts: merged_starts::count(starts),
    };
    let all = sizes.whole();
    if out.len() < all {
        return Err(Reason::Room.into());
    }
    write_merged(file, pair, &rows, starts, sizes, out);
    Ok(all)
}
