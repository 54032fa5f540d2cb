// The tests of rows 2 to 7.
ghost use Rattle.std.specs.Prelude.{◌≡◌, ◌≤◌, ◌<◌, length};
ghost use Rattle.case_model.specs.Limits.{most_nodes};
ghost use Rattle.case_model.specs.Case.{read, at};
ghost use Rattle.case_model.specs.Rows.{step_wrong, start_wrong, node_wrong, binds, binder_wrong, labels_hold, rule_holds, starts_rise, root_closed};
ghost use Rattle.case_tests.specs.RowTests.{limits_of, lowest_of};

use crate::limits::{Limits, NODES};
use case_reader::{
    Kind, is_binder, masks, node, node_count, node_holds, root, section_size, start, start_count,
    state_count, step, step_count,
};

pub fn labels_hold(file: &[u8], limits: Limits) -> bool
    ensures { result ≡ labels_hold (limits_of limits) (read file.now) }
{
    let n = state_count(file);
    (1 <= n) & (n <= limits.states)
}

fn step_wrong(file: &[u8], i: usize) -> bool
    ensures { result ≡ step_wrong (read file.now) i }
{
    let n = state_count(file);
    let t = step(file, i);
    let last = step(file, i.saturating_sub(1));
    !((t.0 < n) & (t.1 < Kind::ACTIONS) & (t.2 < n) & ((i == 0) | (last < t)))
}

// The lowest of `count` steps that is wrong.
pub fn first_wrong_step(file: &[u8], count: usize) -> Option<usize>
    ensures { result ≡ lowest_of (step_wrong (read file.now)) count }
{
    (0..count).find(|i| step_wrong(file, *i))
}

pub fn rule_holds(file: &[u8]) -> bool
    ensures { result ≡ rule_holds file.now (read file.now) }
{
    let m = node_count(file);
    (section_size(file, 2) % 3 == 1) & (1 <= m) & (m <= NODES) & (root(file) < m)
}

fn start_wrong(file: &[u8], i: usize) -> bool
    ensures { result ≡ start_wrong (read file.now) i }
{
    let n = state_count(file);
    let s = start(file, i);
    let last = start(file, i.saturating_sub(1));
    !((s < n) & ((i == 0) | (last < s)))
}

// Are the start states states of the case, and strictly rising?
pub fn starts_rise(file: &[u8]) -> bool
    ensures { result ≡ starts_rise (read file.now) }
{
    (0..start_count(file)).all(|i| !start_wrong(file, i))
}

fn node_wrong(file: &[u8], j: usize) -> bool
    ensures { result ≡ node_wrong (read file.now) j }
{
    !node_holds(j, node(file, j))
}

// The lowest of `count` nodes that is wrong.
pub fn first_wrong_node(file: &[u8], count: usize) -> Option<usize>
    ensures { result ≡ lowest_of (node_wrong (read file.now)) count }
{
    (0..count).find(|j| node_wrong(file, *j))
}

// Does node i bind v?
fn binds(file: &[u8], i: usize, v: usize) -> bool
    ensures { result ≡ binds (at (read file.now).nodes i) v }
{
    let t = node(file, i);
    is_binder(t) & (t.1 == v)
}

fn binder_wrong(file: &[u8], j: usize) -> bool
    ensures { result ≡ binder_wrong (read file.now) j }
{
    let t = node(file, j);
    is_binder(t) && (0..j).any(|i| binds(file, i, t.1))
}

// The lowest of `count` nodes that binds what a node below it binds.
pub fn first_wrong_binder(file: &[u8], count: usize) -> Option<usize>
    ensures { result ≡ lowest_of (binder_wrong (read file.now)) count }
{
    (0..count).find(|j| binder_wrong(file, *j))
}

// The root's entry in the table of free variables is empty.
pub fn root_closed(file: &[u8]) -> bool
    requires { (length (read file.now).nodes ≤ most_nodes) × ((read file.now).root < length (read file.now).nodes) }
    ensures { result ≡ root_closed (read file.now) }
{
    masks(file)[root(file)] == 0
}
