// Whether a rule is regular, by the kinds of the nodes that its root reaches.
ghost use Rattle.std.specs.Prelude.{◌||◌, not, ◌≡◌};
ghost use Rattle.case_model.specs.Kinds.{kind_of};
ghost use Rattle.case_model.specs.Case.{read, at, rule};
ghost use Rattle.case_model.specs.Valid.{ValidRule};
ghost use Rattle.case_reader.specs.NodeKinds.{atom_with, op_of};
ghost use Rattle.regular_model.specs.Regular.{modality, constant, regular};
ghost use Rattle.regular_model.specs.Profile.{modal_at, suits};

use case_reader::{Atom, Kind, Operator, has, kind_of, node, node_count, reached, root};

// An atom's operand does not matter to this test and the next: their contracts have 0 for it.
fn is_modality(atom: Atom) -> bool
    ensures { result ≡ modality (atom_with atom 0) }
{
    matches!(atom, Atom::Action(_) | Atom::Group(_))
}

// The one atom that is neither a modality nor constant.
fn is_tau(atom: Atom) -> bool
    ensures { not result ≡ (modality (atom_with atom 0) || constant (atom_with atom 0)) }
{
    matches!(atom, Atom::Tau)
}

// Is node i of the file a modality?
fn modal_at(file: &[u8], i: usize) -> bool
    ensures { result ≡ modal_at (read file.now) i }
{
    match kind_of(node(file, i)) {
        Kind::Atom(atom) => is_modality(atom),
        Kind::Variable | Kind::Two(_) | Kind::Binder(_) => false,
    }
}

// Can an operator have nodes a and b on its sides?
fn sides_suit(file: &[u8], operator: Operator, a: usize, b: usize) -> bool
    ensures { result ≡ suits (modal_at (read file.now)) (kind_of (op_of operator), a, b) }
{
    let left = modal_at(file, a);
    let right = modal_at(file, b);
    match operator {
        Operator::Or | Operator::And => !left & !right,
        Operator::Chop => left & !right,
    }
}

// Can the root of a regular rule reach node j? By what it is and which of the nodes that it names are modalities.
fn node_suits(file: &[u8], j: usize) -> bool
    ensures { result ≡ suits (modal_at (read file.now)) (at (read file.now).nodes j) }
{
    let x = node(file, j);
    match kind_of(x) {
        Kind::Atom(atom) => !is_tau(atom),
        Kind::Variable => true,
        Kind::Two(operator) => sides_suit(file, operator, x.1, x.2),
        Kind::Binder(_) => !modal_at(file, x.2),
    }
}

// Is the rule of an accepted case regular?
// A file, and no case: regular_profile does not stand on case_file.
pub fn is_regular(file: &[u8]) -> bool
    requires { ValidRule (read file.now) }
    ensures { result ≡ regular (rule (read file.now)) }
{
    let nodes = reached(file);
    !modal_at(file, root(file))
        && (0..node_count(file)).all(|j| !has(nodes, j) || node_suits(file, j))
}
