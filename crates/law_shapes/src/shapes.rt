// The nine laws: what each puts in place of a node, and what becomes of the numbers that name nodes.
ghost use Rattle.std.specs.Prelude.{◌≡◌, ◌≤◌, ◌<◌, ◌∷◌, eqb, leb, get_or};
ghost use Rattle.case_model.specs.Kinds.{kind_of, kind_of_tau, last_constant};
ghost use Rattle.case_model.specs.Case.{read};
ghost use Rattle.case_model.specs.Limits.{most_nodes};
ghost use Rattle.case_model.specs.Rewriting.{nothing, laws_at, change};
ghost use Rattle.case_reader.specs.NodeKinds.{op_of};
ghost use Rattle.case_reader.specs.Read.{triple};
ghost use Rattle.law_shapes.specs.Shapes.{added, Does};

use case_reader::{Atom, Kind, Operator, Triple, node};

// What a law does at node j.
#[derive(Clone, Copy, PartialEq, Eq)]
pub enum Shape {
    // The node stays, and its mentions become `to`.
    Redirect { node: Triple, to: usize },
    // So many nodes come in its place, and numbers from j up move by those added.
    One(Triple),
    Two(Triple, Triple),
    Three(Triple, Triple, Triple),
}

impl Shape {
    // How many nodes it adds.
    pub fn added(self) -> usize
        ensures { (result ≡ added self) × (result ≤ 2) }
    {
        match self {
            Shape::Redirect { .. } | Shape::One(_) => 0,
            Shape::Two(_, _) => 1,
            Shape::Three(_, _, _) => 2,
        }
    }
}

// Is the node of this operator?
fn is(t: Triple, operator: Operator) -> bool
    ensures { result ≡ eqb t.0 (kind_of (op_of operator)) }
{
    t.0 == usize::from(operator)
}

#[tactic(auto, using(crate::proofs::Laws::unknown_above))]
fn is_tau(t: Triple) -> bool
    ensures { result ≡ eqb t.0 kind_of_tau }
{
    matches!(Kind::try_from(t.0), Ok(Kind::Atom(Atom::Tau)))
}

// Is it one of the constants? A node whose number is no kind's is none.
#[tactic(auto, using(crate::proofs::Laws::unknown_above))]
fn is_constant(t: Triple) -> bool
    ensures { result ≡ leb t.0 last_constant }
{
    matches!(
        Kind::try_from(t.0),
        Ok(Kind::Atom(Atom::Top | Atom::Bottom | Atom::Proposition | Atom::Complement))
    )
}

// The node of this operator that names a and b.
fn two(operator: Operator, a: usize, b: usize) -> Triple
    ensures { triple result ≡ (kind_of (op_of operator), a, b) }
{
    Triple(usize::from(operator), a, b)
}

// Law `law`, if it is one, at node j, which is n and names x first and y second. A number, and no enum: the laws have numbers in the specification and for
// C, and this is their one table.
// Five values, and no struct: one function calls it, and the table's lines name each.
fn shape_of(law: usize, j: usize, n: Triple, x: Triple, y: Triple) -> Option<Shape>
    requires { j < most_nodes }
    ensures { Does j result (get_or (nothing ∷ laws_at j (triple n) (triple x) (triple y)) law nothing) }
{
    let chop = is(n, Operator::Chop);
    let pair = is(n, Operator::Or) | is(n, Operator::And);
    let first = Shape::Redirect { node: n, to: n.1 };
    let second = Shape::Redirect { node: n, to: n.2 };
    let left = two(Operator::Chop, x.1, n.2);
    let right = two(Operator::Chop, x.2, n.2);
    let either = two(Operator::Or, j, j + 1);
    let both = two(Operator::And, j, j + 1);
    let outer = two(Operator::Chop, x.1, j);
    let inner = two(Operator::Chop, n.1, y.1);
    let last = two(Operator::Chop, j, y.2);
    match law {
        1 => (chop & is_tau(x)).then_some(second),
        2 => (chop & is_tau(y)).then_some(first),
        3 => (chop & is_constant(x)).then_some(first),
        4 => (chop & is(x, Operator::Chop)).then_some(Shape::Two(right, outer)),
        5 => (chop & is(y, Operator::Chop)).then_some(Shape::Two(inner, last)),
        6 => (chop & is(x, Operator::Or)).then_some(Shape::Three(left, right, either)),
        7 => (chop & is(x, Operator::And)).then_some(Shape::Three(left, right, both)),
        8 => (pair & (n.1 == n.2)).then_some(first),
        9 => pair.then_some(Shape::One(Triple(n.0, n.2, n.1))),
        _ => None,
    }
}

// Law `law` at node j of the file.
pub fn shape_at(file: &[u8], law: usize, j: usize) -> Option<Shape>
    requires { j < most_nodes }
    ensures { Does j result (change (read file.now).nodes law j) }
{
    let n = node(file, j);
    shape_of(law, j, n, node(file, n.1), node(file, n.2))
}
