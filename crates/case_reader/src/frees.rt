// Free variables as masks, bit v for variable v: a table of the nodes, filled in rising number, so that a shared node is visited once.
ghost use Rattle.std.specs.Prelude.{◌≡◌, ◌≤◌, get_or, replicate};
ghost use Rattle.case_model.specs.Kinds.{node_of};
ghost use Rattle.case_model.specs.Case.{read, node_at};
ghost use Rattle.case_model.specs.Limits.{most_nodes};
ghost use Rattle.case_reader.specs.NodeSets.{single, without, mask_of, masks};
ghost use Rattle.case_reader.specs.Read.{triple, free_sets};

use crate::kinds::{Kind, kind_of};
use crate::parts::{Triple, node, node_count};

// The set of one variable.
fn single(v: usize) -> u16
    ensures { result ≡ single v }
{
    if v < 16 { 1u16 << v } else { 0 }
}

// A set without one variable.
fn without(x: u16, v: usize) -> u16
    ensures { result ≡ without x v }
{
    if v < 16 { x & !(1u16 << v) } else { x }
}

// Entry i of a table, 0 past its end.
fn entry(t: &[u16; 64], i: usize) -> u16
    ensures { result ≡ get_or t.now i 0 }
{
    t.get(i).map_or(0, |set| *set)
}

// The free variables of a node, from those of the nodes that it names.
fn mask_of(t: &[u16; 64], x: Triple) -> u16
    ensures { result ≡ mask_of t.now (node_of (triple x)) }
{
    match kind_of(x) {
        Kind::Atom(_) => 0,
        Kind::Variable => single(x.1),
        Kind::Two(_) => entry(t, x.1) | entry(t, x.2),
        Kind::Binder(_) => without(entry(t, x.2), x.1),
    }
}

// Those of each node below j, in a table that had none. A recursion, and no loop, by a rule of the project: what goes over nodes is a recursion with the
// number falling.
fn below(t: &mut [u16; 64], file: &[u8], j: usize)
    requires { (j ≤ most_nodes) × (t.old ≡ replicate most_nodes 0) }
    ensures { t.new ≡ masks (node_at (read file.now)) j }
{
    if j == 0 {
        return;
    }
    let i = j - 1;
    below(t, file, i);
    t[i] = mask_of(t, node(file, i));
}

// Those of each node of a file, of the first 64 if it has more.
// An array of the most nodes that there can be: nothing is allocated.
pub fn masks(file: &[u8]) -> [u16; 64]
    ensures { result ≡ free_sets (read file.now) }
{
    let mut t = [0u16; 64];
    below(&mut t, file, node_count(file).min(64));
    t
}
