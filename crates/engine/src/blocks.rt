// The tables of a rule's nodes, each a block of the work area, and the plan of the rule. They go together through the recursion over nodes.
use case_plan::Plan;

// That a method leaves the plan and the reference stands at each: an invariant says nothing of before and after.
#[derive(Drop)]
pub struct Blocks<'a> {
    pub work: &'a mut [u16],
    pub plan: &'a Plan,
}
