// The parts of a plan: nodes, scopes, binders, and the sets of the state table.
ghost use Rattle.std.specs.Prelude.{◌≡◌, ℕ, ◌≤◌, ◌<◌, length, get_or, replicate};
ghost use Rattle.flc.specs.Sets.{has};
ghost use Rattle.case_model.specs.Limits.{most_nodes, most_states, propositions};
ghost use Rattle.case_model.specs.Case.{Case, read};
ghost use Rattle.case_plan.specs.Plans.{nothing, scope_of};
ghost use Rattle.case_plan.specs.Parts.{NodesOf, BindersOf, Binders, nodes_in, labelled};

use crate::plans::{EVERY, UNREACHED};
use case_reader::{Triple, has, is_binder, label};

// Kind and operands of each node, over nothing: in place, since they are long to copy.
pub(crate) fn put_nodes(nodes: &mut [Triple; 64], file: &[u8], count: usize)
    requires { (nodes.old ≡ replicate most_nodes nothing) × (count ≡ length (read file.now).nodes) × (count ≤ most_nodes) }
    ensures { NodesOf (read file.now) nodes.new }
{
    for (j, node) in nodes[..count].iter_mut().enumerate() {
        *node = case_reader::node(file, j);
    }
}

// The scope of a node, from its free variables and whether the root reaches it.
fn scope_of(free: u16, reached: bool) -> u32
    ensures { result ≡ scope_of free reached }
{
    let scope = free as u32 + EVERY;
    if reached { scope } else { scope + UNREACHED }
}

// The scope of each node.
// A loop, in the form of put_nodes and labelled beside it, which write in place.
pub(crate) fn scopes(frees: &[u16; 64], reached: u64) -> [u32; 64]
    ensures { (j : ℕ) → j < most_nodes → get_or result j 0 ≡ scope_of (get_or frees.now j 0) (has reached j) }
{
    let mut scopes = [0; 64];
    for (j, scope) in scopes.iter_mut().enumerate() {
        *scope = scope_of(frees[j], has(reached, j));
    }
    scopes
}

// The binder of each variable, among these nodes.
pub(crate) fn binders(nodes: &[Triple]) -> [usize; 16]
    requires { Binders (nodes_in nodes.now) (length nodes.now) }
    ensures { BindersOf (nodes_in nodes.now) (length nodes.now) result }
{
    let mut binders = [0; 16];
    for (j, x) in nodes.iter().enumerate() {
        if is_binder(*x) {
            binders[x.1] = j;
        }
    }
    binders
}

// The states that have each proposition. Each label is read once.
// So the loop goes over states, and a proposition's set grows in place: made one by one, each set would read all labels.
pub(crate) fn labelled(file: &[u8], states: usize) -> [u16; 8]
    requires { states ≤ most_states }
    ensures { (i : ℕ) → i < propositions → get_or result i 0 ≡ labelled (read file.now) states i }
{
    let mut sets = [0; 8];
    for s in 0..states {
        let label = label(file, s);
        for (i, set) in sets.iter_mut().enumerate() {
            if has(label as u64, i) {
                *set |= 1 << s;
            }
        }
    }
    sets
}
