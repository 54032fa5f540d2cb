// How many bytes each section of a case file has.
ghost use Rattle.std.specs.Prelude.{◌≡◌, [], ◌∷◌, ◌^◌, ◌<◌};
ghost use Rattle.case_writer.specs.Writing.{whole};

use case_reader::SECTIONS;

#[derive(Clone, Copy)]
pub struct Sizes {
    pub labels: usize,
    pub steps: usize,
    pub rule: usize,
    pub starts: usize,
}

impl Sizes {
    pub fn each(self) -> [usize; 4]
        ensures { result ≡ self.labels ∷ self.steps ∷ self.rule ∷ self.starts ∷ [] }
    {
        [self.labels, self.steps, self.rule, self.starts]
    }

    // How many bytes the file has.
    pub fn whole(self) -> usize
        requires { whole self < 2 ^ 64 }
        ensures { result ≡ whole self }
    {
        4 * SECTIONS + self.labels + self.steps + self.rule + self.starts
    }
}
