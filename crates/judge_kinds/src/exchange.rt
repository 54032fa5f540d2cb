// A copy of a file, with the kinds of its nodes exchanged by a table.
// That row 1 does not refuse the file is said at three functions, and by no type: what is made of the file is bytes, and no case.
ghost use Rattle.std.specs.Prelude.{true, ◌≡◌, ◌/◌, ◌≤◌, length, take};
ghost use Rattle.case_model.specs.Areas.{Filled};
ghost use Rattle.case_model.specs.Bytes.{size, pairs_hold};
ghost use Rattle.case_model.specs.Limits.{standard};
ghost use Rattle.judge_kinds_model.specs.KindTables.{stands_for};
ghost use Rattle.judge_kinds_model.specs.Exchange.{exchanged_byte, exchanged};

use case_reader::{node_count, section_offset};

// The kind that a byte stands for.
#[tactic(auto, unfolding(judge_kinds_model::specs::KindTables::stands_for))]
fn stands_for(kinds: &[u8], kind: u8) -> u8
    ensures { result ≡ stands_for kinds.now kind }
{
    kinds.get(usize::from(kind)).map_or(kind, |entry| *entry)
}

// The kinds of the nodes, into an area that has the file at its front.
// By index: a kind byte has one place, at which it is read in the file and written in the copy.
fn put_kinds(kinds: &[u8], file: &[u8], out: &mut [u8])
    requires file_value { (pairs_hold standard file.now ≡ true) × Filled out.old out.old 0 (length file.now) (exchanged_byte kinds.now file.now 0) }
    requires file_in_bounds { length file.now ≤ length out.old }
    ensures { Filled out.old out.new 0 (length file.now) (exchanged_byte kinds.now file.now (size file.now 2 / 3)) }
{
    let start = section_offset(file, 2);
    for j in 0..node_count(file) {
        let at = start + 3 * j;
        out[at] = stands_for(kinds, file[at]);
    }
}

// The whole file, at the front of an area.
pub(crate) fn exchange(kinds: &[u8], file: &[u8], out: &mut [u8])
    requires { (pairs_hold standard file.now ≡ true) × (length file.now ≤ length out.old) }
    ensures out_after { take (length file.now) out.new ≡ exchanged kinds.now file.now }
    ensures out_len_unchanged { length out.new ≡ length out.old }
{
    out[..file.len()].copy_from_slice(file);
    put_kinds(kinds, file, out);
}
