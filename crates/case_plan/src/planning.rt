// The plan of an accepted case, and that of its rule alone.
// A file with what is asked of it, and no case: case_plan does not stand on case_file, and plans the cases of both its limits.
ghost use Rattle.std.specs.Prelude.{◌≡◌, ◌≤◌};
ghost use Rattle.case_model.specs.Limits.{standard};
ghost use Rattle.case_model.specs.Case.{read};
ghost use Rattle.case_model.specs.Valid.{ValidRule, Valid};
ghost use Rattle.case_plan.specs.Plans.{decoded, RulePlanned, Planned};
ghost use Rattle.case_plan.specs.Parts.{WithTable};

use crate::parts::{binders, labelled, put_nodes, scopes};
use crate::plans::Plan;
use case_reader::{Triple, masks, node_count, reached, root, state_count, step_rows};

// The rule of a case, with a state table. What is read of the file comes before the zeros: judging the smallest cases takes 1.03 of the time if not.
fn with_table(file: &[u8], size: usize, props: [u16; 8], sources: [u16; 128]) -> Plan
    requires { ValidRule (read file.now) × (size ≤ 65536) }
    ensures { WithTable (read file.now) size props sources result }
{
    let states = state_count(file);
    let count = node_count(file);
    let root = root(file);
    let frees = masks(file);
    let reached = reached(file);
    let mut plan = Plan {
        states,
        size,
        limit: states * size,
        root,
        count,
        nodes: [Triple(0, 0, 0); 64],
        scopes: scopes(&frees, reached),
        binders: [0; 16],
        props,
        sources,
    };
    put_nodes(&mut plan.nodes, file, count);
    plan.binders = binders(&plan.nodes[..count]);
    plan
}

// For any number of states: without size, limit and state table.
// Zeros for what is missing, and no type of its own: all that is said of a plan's rule would stand twice, for each type.
pub fn plan_rule(file: &[u8]) -> Plan
    requires { ValidRule (read file.now) }
    ensures { RulePlanned (read file.now) (decoded result) }
{
    with_table(file, 0, [0; 8], [0; 128])
}

// For at most 16 states.
pub fn plan(file: &[u8]) -> Plan
    requires { Valid standard (read file.now) }
    ensures { Planned (read file.now) (decoded result) }
{
    let states = state_count(file);
    with_table(
        file,
        1 << states,
        labelled(file, states),
        step_rows(file, true),
    )
}
