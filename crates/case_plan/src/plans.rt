// A plan of a case. It is long: it is lent, and not copied.
ghost use Rattle.std.specs.Prelude.{◌≡◌, ◌+◌, ◌*◌, ◌<◌};
ghost use Rattle.case_model.specs.Limits.{most_nodes, propositions, variables};
ghost use Rattle.case_reader.specs.Read.{triple};
ghost use Rattle.case_plan.specs.Plans.{decoded};

use case_reader::Triple;

// Arrays of the most entries that there can be, with a count beside them: judging allocates nothing.
// Nodes and scopes are two arrays, and not one of pairs: each is filled by a function with a clause on it alone.
#[derive(Clone, Copy)]
pub struct Plan {
    // n.
    pub states: usize,
    // 2^n.
    pub size: usize,
    // n × 2^n, the rounds after which approximants stand still.
    pub limit: usize,
    // The root's number.
    pub root: usize,
    // How many nodes there are.
    pub count: usize,
    // For each node: kind and operands.
    pub(crate) nodes: [Triple; 64],
    // For each node: what it depends on, a set of variables with two marks beyond them.
    pub(crate) scopes: [u32; 64],
    // For each variable: its binder.
    pub(crate) binders: [usize; 16],
    // For each proposition: the states that have it.
    pub(crate) props: [u16; 8],
    // For each state t and action a, at 8t + a: the states with an a-step to t.
    pub(crate) sources: [u16; 128],
}

// The mark in a scope that each node has.
// Marks, and no flags beside the set: as members of it they are asked for by the engines' one test of sets, with the variables.
pub const EVERY: u32 = 65536;

// That of a node which the root does not reach.
pub(crate) const UNREACHED: u32 = 131072;

impl Plan {
    // Node j.
    pub fn node(&self, j: usize) -> Triple
        requires { j < most_nodes }
        ensures { triple result ≡ (decoded self.now).nodes j }
    {
        self.nodes[j]
    }

    // What node j depends on.
    pub fn scope(&self, j: usize) -> u32
        requires { j < most_nodes }
        ensures { result ≡ (decoded self.now).scopes j }
    {
        self.scopes[j]
    }

    // The binder of variable v.
    pub fn binder(&self, v: usize) -> usize
        requires { v < variables }
        ensures { result ≡ (decoded self.now).homes v }
    {
        self.binders[v]
    }

    // The states that have proposition i.
    pub fn prop(&self, i: usize) -> u16
        requires { i < propositions }
        ensures { result ≡ (decoded self.now).props i }
    {
        self.props[i]
    }

    // The states with an a-step to t.
    pub fn source(&self, a: usize, t: usize) -> u16
        requires { (a < 8) × (t < 16) }
        ensures { result ≡ (decoded self.now).sources (8 * t + a) }
    {
        self.sources[8 * t + a]
    }
}
