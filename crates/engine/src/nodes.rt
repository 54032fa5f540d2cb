// The table of one node from those of the nodes that it names: every kind but the binders.
ghost use Rattle.std.specs.Prelude.{◌≡◌};
ghost use Rattle.case_plan.specs.Plans.{decoded};
ghost use Rattle.engine.specs.Blocks.{Fillable, NodeFilled};

use crate::blocks::Blocks;
use case_reader::{Kind, kind_of};
use tables::{copy, fill_atom, fill_two};

impl Blocks<'_> {
    // Node j, which is no binder.
    pub(crate) fn fill(&mut self, j: usize)
        requires { Fillable (decoded self.old.plan.now) self.old.work.now j }
        ensures is { NodeFilled (decoded self.old.plan.now) self.old.work.now self.new.work.now j }
        ensures plan { self.new.plan ≡ self.old.plan }
        ensures same_reference { self.new.work.ghost_name ≡ self.old.work.ghost_name }
    {
        let x = self.plan.node(j);
        let size = self.plan.size;
        let c = j * size;
        match kind_of(x) {
            Kind::Atom(atom) => fill_atom(self.work, self.plan, atom, x.1, c),
            Kind::Variable => copy(self.work, size, self.plan.binder(x.1) * size, c),
            Kind::Two(operator) => fill_two(self.work, size, operator, x.1 * size, x.2 * size, c),
            Kind::Binder(_) => {}
        }
    }
}
