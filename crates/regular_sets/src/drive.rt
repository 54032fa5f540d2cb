// A drive, as the judge of regular rules looks at it.
ghost use Rattle.std.specs.Prelude.{◌≡◌, length};
ghost use Rattle.case_model.specs.Case.{read};
ghost use Rattle.regular_sets.specs.Views.{StepsAt, Viewed};

use case_reader::{section_offset, state_count};

// Its file and how many states it has; where its steps begin, and the places among them of those of each state and action.
#[derive(Clone, Copy)]
pub struct Drive<'a> {
    pub file: &'a [u8],
    pub states: usize,
    pub steps: usize,
    pub index: &'a [u16; 2049],
    ghost viewed: { Viewed file.now index.now },
    ghost counted: { states ≡ length (read file.now).labels },
    ghost stepped: { StepsAt file.now steps },
}

impl<'a> Drive<'a> {
    pub fn new(file: &'a [u8], index: &'a [u16; 2049]) -> Drive<'a>
        requires { Viewed file.now index.now }
        ensures { (result.file.now ≡ file.now) × (result.index.now ≡ index.now) }
    {
        Drive {
            file,
            states: state_count(file),
            steps: section_offset(file, 1),
            index,
        }
    }
}
