// The set of one node from those of the nodes that it names: every kind but the binders.
ghost use Rattle.std.specs.Prelude.{true, ◌≡◌, ℕ, ◌+◌, ◌*◌, ◌≤◌, length};
ghost use Rattle.flc.specs.Formula.{mean_atom};
ghost use Rattle.case_model.specs.Kinds.{fits};
ghost use Rattle.case_model.specs.Case.{read, table};
ghost use Rattle.case_reader.specs.NodeKinds.{atom_with, op_of, operand_of};
ghost use Rattle.flc.specs.Nodes.{two};
ghost use Rattle.case_plan.specs.Plans.{decoded, nodes_of};
ghost use Rattle.regular_model.specs.Values.{constant_of};
ghost use Rattle.regular_model.specs.HeldSets.{Stored};
ghost use Rattle.regular_sets.specs.Views.{Fillable, NodeMade};

use crate::bytes::{constant, copy, intersection, union};
use crate::drive::Drive;
use crate::labels::label_set;
use crate::modal::{modal_set, modality_at};
use case_plan::Plan;
use case_reader::{Atom, Kind, Operator, kind_of};

// The rule of a case, as it was planned, and the drive that it is judged on.
#[derive(Clone, Copy)]
pub struct Rule<'a> {
    pub drive: Drive<'a>,
    pub plan: &'a Plan,
    ghost same_states: { (decoded plan.now).states ≡ drive.states },
}

// An atom with its operand a; τ and the modalities have no set of their own.
// Like tables' fill.rt by its arms alone: what is called in each has other clauses, so that a trait for both would be the longer.
fn fill_atom(work: &mut [u8], drive: Drive, atom: Atom, a: usize, c: usize)
    requires { ((j : ℕ) → fits (operand_of atom) j a ≡ true) × (c + 32 ≤ length work.old) }
    ensures { Stored work.old work.new c (mean_atom (table (read drive.entry.file.now)) (constant_of (atom_with atom a)) 0) }
{
    match atom {
        Atom::Top => constant(work, drive.states, true, c),
        Atom::Proposition => label_set(work, drive, a, true, c),
        Atom::Complement => label_set(work, drive, a, false, c),
        _ => constant(work, drive.states, false, c),
    }
}

// Two nodes under an operator.
fn fill_two(work: &mut [u8], rule: &Rule, j: usize, operator: Operator)
    requires ready { Fillable rule.now.drive.file.now (decoded rule.now.plan.now) work.old j }
    requires operands { let p = decoded rule.now.plan.now in nodes_of p j ≡ two (op_of operator) (p.nodes j).1 (p.nodes j).2 }
    ensures { NodeMade rule.now.drive.file.now (decoded rule.now.plan.now) work.old j work.new }
{
    let x = rule.plan.node(j);
    let a = 64 * x.1;
    let b = 64 * x.2;
    let c = 64 * j;
    match operator {
        Operator::Or => union(work, a, b, c),
        Operator::And => intersection(work, a, b, c),
        Operator::Chop => {
            let left = modality_at(rule.plan.node(x.1));
            modal_set(work, rule.drive, left, b, c)
        }
    }
}

// Node j, which is no binder.
pub fn fill(work: &mut [u8], rule: &Rule, j: usize)
    requires { Fillable rule.now.drive.file.now (decoded rule.now.plan.now) work.old j }
    ensures { NodeMade rule.now.drive.file.now (decoded rule.now.plan.now) work.old j work.new }
{
    let x = rule.plan.node(j);
    let c = 64 * j;
    match kind_of(x) {
        Kind::Atom(atom) => fill_atom(work, rule.drive, atom, x.1, c),
        Kind::Variable => copy(work, 64 * rule.plan.binder(x.1), c),
        Kind::Two(operator) => fill_two(work, rule, j, operator),
        Kind::Binder(_) => {}
    }
}
