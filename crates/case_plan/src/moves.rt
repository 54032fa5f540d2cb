// In which direction a binder's approximants move, and the set of its variable. Both engines stand on them.
ghost use Rattle.std.specs.Prelude.{◌≡◌, ◌^◌, ◌<◌};
ghost use Rattle.case_model.specs.Limits.{variables};
ghost use Rattle.case_plan.specs.Moves.{direction, goes_on};

// Up, from approximant 0 of a least fixed point; down, from that of a greatest.
#[derive(Clone, Copy, PartialEq, Eq)]
pub enum Direction {
    Up,
    Down,
}

impl Direction {
    // The direction of a binder, by its kind.
    // A name, and no From<bool>, which would not say which of the two is up.
    pub fn of(least: bool) -> Self
        ensures { result ≡ direction least }
    {
        if least {
            Direction::Up
        } else {
            Direction::Down
        }
    }

    // May a binder that moves in this direction go on from what it has? Only if what moved since moved so too; it starts anew if nothing is known.
    pub fn goes_on(self, moved: Option<Self>) -> bool
        ensures { result ≡ goes_on self moved }
    {
        moved == Some(self)
    }
}

// The set of one variable.
// Wider than case_reader's `single`, for the marks of a scope lie above the variables; that one takes any v.
pub fn variable(v: usize) -> u32
    requires { v < variables }
    ensures { result ≡ 2 ^ v }
{
    1 << v
}
