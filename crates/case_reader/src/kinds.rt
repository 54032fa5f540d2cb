// What a triple is as a node, and what its operands can be: the one place of the code that knows the numbers of the kinds.
ghost use Rattle.std.specs.Prelude.{◌≡◌};
ghost use Rattle.case_model.specs.Kinds.{kind_at, node_of, node_holds, is_binder};
ghost use Rattle.case_model.specs.Kinds.{kind_of as number_of_operator};
ghost use Rattle.case_reader.specs.Read.{triple};
ghost use Rattle.case_reader.specs.NodeKinds.{op_of, line_of, Decodes};

use crate::parts::Triple;

// What is constant, τ; and the modalities, of some step if true, else of all steps: those of one action and those of a group of actions.
// The flags are bool, as in `modal` and `fix` of the logic (flc), beside which contracts set them: an enum would be turned into them at each.
#[derive(Clone, Copy, PartialEq, Eq)]
pub enum Atom {
    Top,
    Bottom,
    Proposition,
    Complement,
    Tau,
    Action(bool),
    Group(bool),
}

#[derive(Clone, Copy, PartialEq, Eq)]
pub enum Operator {
    Or = 8,
    And = 9,
    Chop = 10,
}

// The number of its kind.
impl From<Operator> for usize {
    ghost from_gives = { λ o n. n ≡ number_of_operator (op_of o) };

    fn from(operator: Operator) -> usize {
        operator as usize
    }
}

// A leaf, which names no node: an atom or a variable; a node that names two; or a binder, of the least fixed point if true, else of the greatest.
// Without operands, which stay in the triple: `kind_of` promises the table's line of t.0 for any triple, and that line has none.
#[derive(Clone, Copy, PartialEq, Eq)]
pub enum Kind {
    Atom(Atom),
    Variable,
    Two(Operator),
    Binder(bool),
}

impl Kind {
    // The last kind of a constant, τ's, and those of the operators.
    // Numbers, and no values of Kind: they are public, for code that reads a triple's first byte.
    pub const LAST_CONSTANT: usize = 3;

    pub const TAU: usize = 5;

    pub const OR: usize = Operator::Or as usize;

    pub const AND: usize = Operator::And as usize;

    pub const CHOP: usize = Operator::Chop as usize;

    // How many propositions, variables, actions and groups of actions an operand can name.
    pub const PROPOSITIONS: usize = 8;

    pub const VARIABLES: usize = 16;

    pub const ACTIONS: usize = 8;

    pub const GROUPS: usize = 256;
}

// A number that is no kind's.
#[derive(Clone, Copy, PartialEq, Eq)]
pub struct UnknownKind(pub usize);

impl TryFrom<usize> for Kind {
    type Error = UnknownKind;

    ghost try_from_gives = { Decodes };

    #[tactic(auto, unfolding(case_model::specs::Kinds::kinds, case_model::specs::Kinds::kind_at))]
    fn try_from(number: usize) -> Result<Self, UnknownKind> {
        match number {
            0 => Ok(Kind::Atom(Atom::Top)),
            1 => Ok(Kind::Atom(Atom::Bottom)),
            2 => Ok(Kind::Atom(Atom::Proposition)),
            3 => Ok(Kind::Atom(Atom::Complement)),
            4 => Ok(Kind::Variable),
            5 => Ok(Kind::Atom(Atom::Tau)),
            6 => Ok(Kind::Atom(Atom::Action(true))),
            7 => Ok(Kind::Atom(Atom::Action(false))),
            8 => Ok(Kind::Two(Operator::Or)),
            9 => Ok(Kind::Two(Operator::And)),
            10 => Ok(Kind::Two(Operator::Chop)),
            11 => Ok(Kind::Binder(true)),
            12 => Ok(Kind::Binder(false)),
            13 => Ok(Kind::Atom(Atom::Group(true))),
            14 => Ok(Kind::Atom(Atom::Group(false))),
            _ => Err(UnknownKind(number)),
        }
    }
}

// The line of the table that a triple has; past the table's end, a constant.
// No Result: a public function that could not fail still can't. `Kind::try_from` stands beside it.
#[tactic(auto, using(crate::proofs::Knowing::by_number))]
pub fn kind_of(t: Triple) -> Kind
    ensures { line_of result ≡ kind_at t.0 }
{
    Kind::try_from(t.0).unwrap_or(Kind::Atom(Atom::Bottom))
}

pub fn is_binder(t: Triple) -> bool
    ensures { result ≡ is_binder (node_of (triple t)) }
{
    matches!(kind_of(t), Kind::Binder(_))
}

// Row 5, for node j. The lines are the productions of the grammar line of source document 000, section 2, in its order, q as its four kinds; then the two
// kinds of groups, which that line does not have. A line is tried only if those before it did not fit.
// By numbers, one test a line, and no match on Kind: docs/SPECIFICATION.md, clause 11.6, fixes the order of the tests.
pub fn node_holds(j: usize, t: Triple) -> bool
    ensures { result ≡ node_holds j (triple t) }
{
    let kind = t.0;
    let a = t.1;
    let b = t.2;
    (kind == 0) & (a == 0) & (b == 0) // q: tt
        || (kind == 1) & (a == 0) & (b == 0) // q: ff
        || (kind == 2) & (a < Kind::PROPOSITIONS) & (b == 0) // q: a proposition
        || (kind == 3) & (a < Kind::PROPOSITIONS) & (b == 0) // q: its complement
        || (kind == 4) & (a < Kind::VARIABLES) & (b == 0) // Z
        || (kind == 5) & (a == 0) & (b == 0) // τ
        || (kind == 6) & (a < Kind::ACTIONS) & (b == 0) // ⟨a⟩
        || (kind == 7) & (a < Kind::ACTIONS) & (b == 0) // [a]
        || (kind == 8) & (a < j) & (b < j) // φ ∨ ψ
        || (kind == 9) & (a < j) & (b < j) // φ ∧ ψ
        || (kind == 11) & (a < Kind::VARIABLES) & (b < j) // μZ. φ
        || (kind == 12) & (a < Kind::VARIABLES) & (b < j) // νZ. φ
        || (kind == 10) & (a < j) & (b < j) // φ; ψ
        || (kind == 13) & (a < Kind::GROUPS) & (b == 0) // some step by a group
        || (kind == 14) & (a < Kind::GROUPS) & (b == 0) // all steps by a group
}
