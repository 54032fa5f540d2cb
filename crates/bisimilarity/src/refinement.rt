// Which states are alike, by refinement: pairs with unequal labels are left out, then pairs with a step that is not met, until none is.
// A relation is a row for each state s, the set of the states related to s.
ghost use Rattle.std.specs.Prelude.{◌≡◌, cond, ◌+◌, ◌^◌, ◌≤◌, ◌<◌};
ghost use Rattle.flc.specs.Sets.{has, implies, set_of};
ghost use Rattle.flc.specs.Bisimulation.{met, bisimilar};
ghost use Rattle.case_model.specs.Limits.{most_states};
ghost use Rattle.bisimilarity.specs.Graphs.{table_of};
ghost use Rattle.bisimilarity.specs.Relations.{related, Rows, meets, kept, same_label};

use crate::graph::Graph;
use case_file::Case;
use case_reader::has;
use std::array;

// A set of states below t, with t too if it passed. The sets of `left` and `labelled` grow by it in a `for`: each turn begins with what the last one left.
fn extended(x: u16, t: usize, passed: bool) -> u16
    requires { (x < 2 ^ t) × (t < most_states) }
    ensures { result ≡ x + cond passed (2 ^ t) 0 }
{
    if passed { x + (1u16 << t) } else { x }
}

// Is each state of the set `from` related to one of the set `to`? Steps by an action that is not looked at need not be met.
// A loop that looks at every state, and no `all`: with that, and with `has`, classes took twice the time.
// Five values, one flag among them, and no struct: each call has others, and they are the arguments of the clause.
fn met_by(looked: bool, n: usize, rows: &[u16; 16], from: u16, to: u16) -> bool
    requires { (n ≤ most_states) × (to < 2 ^ n) }
    ensures { result ≡ implies looked (meets n (related rows.now) (has from) (has to)) }
{
    if !looked {
        return true;
    }
    let mut all = true;
    for u in 0..n {
        all &= ((from >> u) % 2 != 1) | (to & rows[u] != 0);
    }
    all
}

impl Graph {
    // Is each step of s met by a step of t?
    // That s and t are states stands at each: a type for it would have to hold the graph. The rows change from round to round, the graph does not.
    fn met(&self, rows: &[u16; 16], s: usize, t: usize) -> bool
        requires { (s < self.now.states) × (t < self.now.states) }
        ensures { result ≡ met (table_of self.now) (related rows.now) s t }
    {
        (0..Case::ACTIONS).all(|a| {
            let from = self.successors[8 * s + a];
            let to = self.successors[8 * t + a];
            met_by(has(self.acts as u64, a), self.states, rows, from, to)
        })
    }

    // Does the pair stay?
    #[tactic(auto, unfolding(crate::specs::Relations::kept, crate::specs::Relations::related, flc::specs::Sets::both))]
    fn kept(&self, rows: &[u16; 16], s: usize, t: usize) -> bool
        requires { (s < self.now.states) × (t < self.now.states) }
        ensures { result ≡ kept (table_of self.now) (related rows.now) s t }
    {
        has(rows[s] as u64, t) && (self.met(rows, s, t) && self.met(rows, t, s))
    }

    // What is left of the row of s.
    // Beside `labelled`: `kept` asks that t is a state, so that with a closure for the test the clause would have to say for which t.
    fn left(&self, rows: &[u16; 16], s: usize) -> u16
        requires { s < self.now.states }
        ensures { result ≡ set_of self.now.states (kept (table_of self.now) (related rows.now) s) }
    {
        let mut row = 0u16;
        for t in 0..self.states {
            row = extended(row, t, self.kept(rows, s, t));
        }
        row
    }

    // One refinement: every pair is tested against the same rows.
    // Beside `start`, and not one with it, for the same reason: `left` and `labelled` ask that s is a state.
    fn refined(&self, rows: &[u16; 16]) -> [u16; 16]
        ensures { Rows self.now.states result (kept (table_of self.now) (related rows.now)) }
    {
        array::from_fn(|s| if s < self.states {
            self.left(rows, s)
        } else {
            0
        })
    }

    // The states with the label of s.
    fn labelled(&self, s: usize) -> u16
        requires { s < self.now.states }
        ensures { result ≡ set_of self.now.states (same_label (table_of self.now) s) }
    {
        let mut row = 0u16;
        for t in 0..self.states {
            row = extended(row, t, self.labels[s] == self.labels[t]);
        }
        row
    }

    // The pairs with equal labels.
    fn start(&self) -> [u16; 16]
        ensures { Rows self.now.states result (same_label (table_of self.now)) }
    {
        array::from_fn(|s| if s < self.states { self.labelled(s) } else { 0 })
    }

    // Every round but the last drops a pair, so the rounds end.
    pub fn alike_rows(&self) -> [u16; 16]
        ensures { Rows self.now.states result (bisimilar (table_of self.now)) }
    {
        let n = self.states;
        let mut rows = self.start();
        loop {
            let next = self.refined(&rows);
            if rows[..n] == next[..n] {
                return rows;
            }
            rows = next;
        }
    }
}
