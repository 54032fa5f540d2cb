// Where the steps of each state and action stand in the list: entry 8s + a is the first place of those of s by a, or of later ones; so the next entry is
// where they end.
ghost use Rattle.std.specs.Prelude.{◌≡◌, ◌-◌, ◌≤◌, leb, length};
ghost use Rattle.flc.specs.Sets.{first};
ghost use Rattle.case_model.specs.Case.{read};
ghost use Rattle.case_model.specs.Valid.{ValidTable};
ghost use Rattle.regular_model.specs.StepGroups.{key};
ghost use Rattle.regular_sets.specs.Views.{StepsInside, Viewed};

use case_reader::{state_count, step, step_count};

// The first place from `from` on of a step that comes for k or later.
fn next(file: &[u8], from: usize, k: usize) -> usize
    requires { from ≤ length (read file.now).steps }
    ensures { result ≡ first (λ i. leb k (key (read file.now).steps i)) from (length (read file.now).steps - from) }
{
    let count = step_count(file);
    // A `for`, and no `find`, which took 1.2 of the time.
    for i in from..count {
        let x = step(file, i);
        if k <= 8 * x.0 + x.1 {
            return i;
        }
    }
    count
}

// One pass over the steps: each search goes on where the last one ended, which no iterator over the index knows.
// An array of the most entries that there can be: judging allocates nothing.
pub fn step_index(file: &[u8]) -> [u16; 2049]
    requires { ValidTable 256 (read file.now) × StepsInside file.now }
    ensures { Viewed file.now result }
{
    let count = 8 * state_count(file) + 1;
    let mut index = [0u16; 2049];
    let mut at: usize = 0;
    for k in 0..count {
        at = next(file, at, k);
        index[k] = at as u16;
    }
    index
}
