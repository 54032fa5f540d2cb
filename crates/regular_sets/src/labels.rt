// The states that have a proposition, and those that have it not.
ghost use Rattle.std.specs.Prelude.{◌≡◌, ◌+◌, ◌≤◌, ◌<◌, length};
ghost use Rattle.flc.specs.Sets.{has};
ghost use Rattle.flc.specs.Formula.{mean_atom};
ghost use Rattle.case_model.specs.Case.{read, table};
ghost use Rattle.regular_model.specs.HeldSets.{Stored};
ghost use Rattle.regular_sets.specs.Views.{label_atom};

use crate::drive::Drive;
use crate::members::store;
use case_reader::{has, label};

// A flag, as in `label_atom` of the contracts: it is compared with the answer of `has`, and nothing hangs on it.
impl Drive<'_> {
    // Has the label of state s proposition p, or with the flag false: has it not? Of no state, no.
    fn labelled(self, p: usize, with: bool, s: usize) -> bool
        requires { p < 8 }
        ensures { result ≡ has (mean_atom (table (read self.entry.file.now)) (label_atom with p) 0) s }
    {
        s < self.states && has(label(self.file, s) as u64, p) == with
    }
}

pub(crate) fn label_set(work: &mut [u8], drive: Drive, p: usize, with: bool, c: usize)
    requires { (p < 8) × (c + 32 ≤ length work.old) }
    ensures { Stored work.old work.new c (mean_atom (table (read drive.entry.file.now)) (label_atom with p) 0) }
{
    store(work, c, |s| drive.labelled(p, with, s));
}
