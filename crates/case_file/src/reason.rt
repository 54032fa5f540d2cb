// Refusals: the reasons by their numbers (docs/SPECIFICATION.md, section 8), with a place.
ghost use Rattle.std.specs.Prelude.{◌≡◌};
ghost use Rattle.case_file.specs.EnumNumbers.{number};

#[derive(Clone, Copy, PartialEq, Eq, Debug)]
pub enum Reason {
    Pairs = 1,
    Labels = 2,
    Steps = 3,
    Rule = 4,
    Node = 5,
    Binder = 6,
    Free = 7,
    Beyond = 8,
    Work = 9,
    Unlike = 10,
    Shape = 11,
    TooManyNodes = 12,
    Room = 13,
    Form = 14,
    Table = 15,
}

#[derive(Clone, Copy, PartialEq, Eq, Debug)]
pub struct Refusal {
    pub reason: Reason,
    pub place: usize,
}

impl Refusal {
    // The number of the refusal.
    // A method, and no From: a refusal has a place beside its number, and the public method keeps its promise.
    pub fn number(self) -> u64
        ensures { result ≡ number self.reason }
    {
        self.reason as u64
    }
}

// A refusal with place 0.
impl From<Reason> for Refusal {
    ghost from_gives = { λ r x. x ≡ record { reason = r; place = 0 } };

    fn from(reason: Reason) -> Refusal {
        Refusal { reason, place: 0 }
    }
}
