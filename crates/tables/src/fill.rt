// The table of an atom, and that of two tables under an operator.
ghost use Rattle.std.specs.Prelude.{true, ◌≡◌, ℕ, ◌+◌, ◌≤◌, length};
ghost use Rattle.case_model.specs.Kinds.{fits};
ghost use Rattle.case_reader.specs.NodeKinds.{atom_with, op_of, operand_of};
ghost use Rattle.case_plan.specs.Plans.{decoded, Sized};
ghost use Rattle.tables.specs.Tables.{AtomFilled, Beneath, OperatorFilled};

use crate::modal::modality;
use crate::words::{chop, constant, identity, intersection, union};
use case_plan::Plan;
use case_reader::{Atom, Operator};

// An atom with its operand a. That the plan is one with sizes (`Sized`) is asked for, and no invariant of it: the plan of a regular rule has none.
pub fn fill_atom(work: &mut [u16], plan: &Plan, atom: Atom, a: usize, c: usize)
    requires { Sized (decoded plan.now) × ((j : ℕ) → fits (operand_of atom) j a ≡ true) × (c + (decoded plan.now).size ≤ length work.old) }
    ensures { AtomFilled (decoded plan.now) work.old work.new c (atom_with atom a) }
{
    let size = plan.size;
    let full = (size - 1) as u16;
    match atom {
        Atom::Top => constant(work, size, c, full),
        Atom::Bottom => constant(work, size, c, 0),
        Atom::Proposition => constant(work, size, c, plan.prop(a)),
        Atom::Complement => constant(work, size, c, full - plan.prop(a)),
        Atom::Tau => identity(work, size, c),
        Atom::Action(some) => modality(work, plan, some, 1 << a, c),
        Atom::Group(some) => modality(work, plan, some, a, c),
    }
}

// The tables at left and right under an operator.
pub fn fill_two(
    work: &mut [u16],
    size: usize,
    operator: Operator,
    left: usize,
    right: usize,
    c: usize,
)
    requires { Beneath work.old size left right c }
    ensures { OperatorFilled work.old work.new size left right c (op_of operator) }
{
    match operator {
        Operator::Or => union(work, size, left, right, c),
        Operator::And => intersection(work, size, left, right, c),
        Operator::Chop => chop(work, size, left, right, c),
    }
}
