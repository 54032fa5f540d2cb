// Which nodes the root reaches, as a set: bit j for node j. By recursion over nodes with the number falling, so that a shared node is visited once.
ghost use Rattle.std.specs.Prelude.{◌≡◌};
ghost use Rattle.case_model.specs.Kinds.{node_of};
ghost use Rattle.case_model.specs.Case.{read, node_at};
ghost use Rattle.case_model.specs.Valid.{ValidRule};
ghost use Rattle.case_model.specs.Reach.{ReachSet};
ghost use Rattle.case_reader.specs.Read.{triple};
ghost use Rattle.case_reader.specs.NodeSets.{with_node, with_named, spread};

use crate::kinds::{Kind, kind_of};
use crate::parts::{Triple, node, root};
use crate::states::has;

// The set with node i; a node past the 64th has no place in it.
fn with(set: u64, i: usize) -> u64
    ensures { result ≡ with_node set i }
{
    if i < 64 { set | (1u64 << i) } else { set }
}

// The set with the nodes that node j names, if it has j.
fn with_named(set: u64, x: Triple, j: usize) -> u64
    ensures { result ≡ with_named set (node_of (triple x)) j }
{
    if !has(set, j) {
        return set;
    }
    match kind_of(x) {
        Kind::Atom(_) | Kind::Variable => set,
        Kind::Two(_) => with(with(set, x.1), x.2),
        Kind::Binder(_) => with(set, x.2),
    }
}

// The same for all nodes below k, from the highest down. A recursion, and no loop, by the rule of the project for what goes over nodes.
fn spread(file: &[u8], k: usize, set: u64) -> u64
    ensures { result ≡ spread (node_at (read file.now)) k set }
{
    if k == 0 {
        return set;
    }
    let j = k - 1;
    spread(file, j, with_named(set, node(file, j), j))
}

// The nodes that the root of a valid rule reaches. Nodes above it are not looked at.
pub fn reached(file: &[u8]) -> u64
    ensures { ValidRule (read file.now) → ReachSet (read file.now) result }
{
    let top = root(file);
    if top < 64 {
        spread(file, top + 1, with(0, top))
    } else {
        0
    }
}
