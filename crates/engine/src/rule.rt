// The whole rule.
ghost use Rattle.std.specs.Prelude.{◌≡◌, length};
ghost use Rattle.case_plan.specs.Plans.{decoded};
ghost use Rattle.engine.specs.Computing.{Runnable, Ran};

use crate::blocks::Blocks;
use case_plan::{EVERY, Plan};

impl Blocks<'_> {
    fn compute_all(&mut self) -> usize
        requires { Runnable (decoded self.old.plan.now) (length self.old.work.now) }
        ensures is { Ran (decoded self.old.plan.now) self.old.work.now self.new.work.now result }
        ensures same_reference { self.new.work.ghost_name ≡ self.old.work.ghost_name }
    {
        let root = self.plan.root;
        self.refresh(root, 0, EVERY, None);
        self.compute(root, EVERY, None)
    }
}

// All nodes that the root reaches. The answer is how many rounds the root took.
pub fn run(work: &mut [u16], plan: &Plan) -> usize
    requires { Runnable (decoded plan.now) (length work.old) }
    ensures { Ran (decoded plan.now) work.old work.new result }
{
    let mut blocks = Blocks { work, plan };
    blocks.compute_all()
}
