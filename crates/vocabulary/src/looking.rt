// What a rule looks at: the propositions and the actions of the nodes that its root reaches, as masks: bit i for proposition i, bit a for action a.
ghost use Rattle.std.specs.Prelude.{true, ◌≡◌, ℕ};
ghost use Rattle.flc.specs.Formula.{atom};
ghost use Rattle.flc.specs.Vocabulary.{only_props, only_acts, union, vocabulary};
ghost use Rattle.case_model.specs.Kinds.{fits, node_of, node_holds};
ghost use Rattle.case_model.specs.Case.{read};
ghost use Rattle.case_model.specs.Valid.{ValidRule};
ghost use Rattle.case_model.specs.Looking.{own, looked};
ghost use Rattle.case_reader.specs.NodeKinds.{atom_with, operand_of};
ghost use Rattle.case_reader.specs.Read.{triple};
ghost use Rattle.vocabulary.specs.Gathering.{vocabulary_of};

use case_reader::{Atom, Kind, Triple, has, kind_of, node, node_count, reached};

#[derive(Clone, Copy)]
pub struct Vocabulary {
    pub props: usize,
    pub acts: usize,
}

impl Vocabulary {
    const NOTHING: Vocabulary = Vocabulary { props: 0, acts: 0 };

    fn of_props(x: usize) -> Vocabulary
        ensures { vocabulary_of result ≡ only_props x }
    {
        Vocabulary { props: x, acts: 0 }
    }

    fn of_acts(x: usize) -> Vocabulary
        ensures { vocabulary_of result ≡ only_acts x }
    {
        Vocabulary { props: 0, acts: x }
    }

    fn union(self, other: Vocabulary) -> Vocabulary
        ensures { vocabulary_of result ≡ union (vocabulary_of self) (vocabulary_of other) }
    {
        Vocabulary {
            props: self.props | other.props,
            acts: self.acts | other.acts,
        }
    }
}

// What an atom with its operand a looks at.
#[tactic(auto, unfolding(flc::specs::Vocabulary::vocabulary))]
fn of_atom(x: Atom, a: usize) -> Vocabulary
    requires { (j : ℕ) → fits (operand_of x) j a ≡ true }
    ensures { vocabulary_of result ≡ vocabulary (atom (atom_with x a)) }
{
    match x {
        Atom::Top | Atom::Bottom | Atom::Tau => Vocabulary::NOTHING,
        Atom::Proposition | Atom::Complement => Vocabulary::of_props(1 << a),
        Atom::Action(_) => Vocabulary::of_acts(1 << a),
        Atom::Group(_) => Vocabulary::of_acts(a),
    }
}

// What a node looks at by itself.
#[tactic(auto, unfolding(flc::specs::Vocabulary::vocabulary))]
fn own(x: Triple) -> Vocabulary
    requires { (j : ℕ) × (node_holds j (triple x) ≡ true) }
    ensures { vocabulary_of result ≡ own (node_of (triple x)) }
{
    match kind_of(x) {
        Kind::Atom(atom) => of_atom(atom, x.1),
        Kind::Variable | Kind::Two(_) | Kind::Binder(_) => Vocabulary::NOTHING,
    }
}

// Nodes that the root does not reach count for nothing.
// A loop, and no fold: the closure would need a clause of its own, on what is gathered so far.
// A file, and no case: vocabulary does not stand on case_file.
pub fn looked(file: &[u8]) -> Vocabulary
    requires { ValidRule (read file.now) }
    ensures { vocabulary_of result ≡ looked (read file.now) }
{
    let nodes = reached(file);
    let mut all = Vocabulary::NOTHING;
    for j in 0..node_count(file) {
        if has(nodes, j) {
            all = all.union(own(node(file, j)));
        }
    }
    all
}
