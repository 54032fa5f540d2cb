// The modalities: of each state, its steps by the actions of a group are looked at until one decides.
ghost use Rattle.std.specs.Prelude.{true, false, ◌≡◌, ℕ, ◌+◌, ◌*◌, ◌≤◌, ◌<◌, length};
ghost use Rattle.flc.specs.Sets.{has, singleton};
ghost use Rattle.flc.specs.Formula as logic;
ghost use Rattle.flc.specs.Formula.{actions, mean_atom};
ghost use Rattle.case_model.specs.Kinds.{node_of, node_holds, fits};
ghost use Rattle.case_model.specs.Case.{read, table, at};
ghost use Rattle.case_reader.specs.Read.{Is, triple};
ghost use Rattle.case_reader.specs.NodeKinds.{atom_with, operand_of};
ghost use Rattle.regular_model.specs.Values.{modality_in};
ghost use Rattle.regular_model.specs.Blocks.{modality_at};
ghost use Rattle.regular_model.specs.HeldSets.{held_at, Stored};
ghost use Rattle.regular_model.specs.StepGroups.{hits};
ghost use Rattle.regular_sets.specs.Views.{decided};

use crate::bytes::{member, take};
use crate::drive::Drive;
use crate::members::store;
use case_reader::{Atom, Kind, Triple, kind_of};

// Of some step if true, else of all, by the actions of a group, which are among those from `first` up to `last`.
// `some` is a flag as in clause 1.7's atoms: it chooses between two quantifiers, and no field hangs on it.
#[derive(Clone, Copy)]
pub struct Modality {
    pub some: bool,
    pub group: usize,
    pub first: usize,
    pub last: usize,
    ghost low: { (a : ℕ) → a < first → has group a ≡ false },
    ghost high: { (a : ℕ) → last ≤ a → a < 8 → has group a ≡ false },
    ghost few: { last ≤ 8 },
}

// That of one action.
fn by_action(some: bool, a: usize) -> Modality
    requires { a < actions }
    ensures { logic.modal result.some result.group ≡ logic.modal some (singleton a) }
{
    Modality {
        some,
        group: 1 << a,
        first: a,
        last: a + 1,
    }
}

// That of a group.
fn by_group(some: bool, group: usize) -> Modality
    ensures { logic.modal result.some result.group ≡ logic.modal some group }
{
    Modality {
        some,
        group,
        first: 0,
        last: 8,
    }
}

// The modality that an atom with its operand a is; of another atom, one by no action.
// No Option: the model's `modality_in` gives every atom one, and a regular rule has only modalities on the left of a chop.
fn modality_in(atom: Atom, a: usize) -> Modality
    requires { (j : ℕ) → fits (operand_of atom) j a ≡ true }
    ensures { logic.modal result.some result.group ≡ modality_in (atom_with atom a) }
{
    match atom {
        Atom::Action(some) => by_action(some, a),
        Atom::Group(some) => by_group(some, a),
        _ => by_group(true, 0),
    }
}

// The same of a node, which in a regular rule is a modality if it is the left one of a chop.
pub(crate) fn modality_at(x: Triple) -> Modality
    requires { (j : ℕ) × (node_holds j (triple x) ≡ true) }
    ensures { logic.modal result.some result.group ≡ modality_at (node_of (triple x)) }
{
    match kind_of(x) {
        Kind::Atom(atom) => modality_in(atom, x.1),
        _ => by_group(true, 0),
    }
}

impl Drive<'_> {
    // The state that step i enters. Read without a test of the length: this is the innermost of all loops.
    fn target(self, i: usize) -> usize
        requires { i < length (read self.file.now).steps }
        ensures { Is (at (read self.entry.file.now).steps i).2 256 result }
    {
        self.file[self.steps + 3 * i + 2] as usize
    }

    // Does a step from place `from` up to `to` lead into the set, or out of it?
    // Beside the drive go the values that change from call to call.
    // Inlined before the compiler simplifies `holds`, as is `decides`: a step that decides then leaves both loops at once.
    #[inline(always)]
    fn hit(self, from: usize, to: usize, x: &[u8; 32], into: bool) -> bool
        requires { to ≤ length (read self.file.now).steps }
        ensures { result ≡ hits (read self.entry.file.now).steps (held_at x.now 0) into from to }
    {
        // A `for`, and no `any`: that was tried and took 1.1 of the time.
        for i in from..to {
            if member(x, self.target(i)) == into {
                return true;
            }
        }
        false
    }

    // The same for the steps of state s by action a, if the group has it.
    #[inline(always)]
    fn decides(self, x: &[u8; 32], m: Modality, s: usize, a: usize) -> bool
        requires { (s < length (read self.file.now).labels) × (a < 8) }
        ensures { result ≡ decided (read self.entry.file.now).steps (held_at x.now 0) m.some m.group s a }
    {
        let k = 8 * s + a;
        // No call of `has`, which tests the width too: in this loop over all states that took 1.06 of the time.
        (m.group >> a) % 2 == 1
            && self.hit(
                self.index[k] as usize,
                self.index[k + 1] as usize,
                x,
                m.some,
            )
    }

    // Is state s in the modality of the set? No state past the table is.
    pub(crate) fn holds(self, x: &[u8; 32], m: Modality, s: usize) -> bool
        ensures { result ≡ has (mean_atom (table (read self.entry.file.now)) (logic.modal m.some m.group) (held_at x.now 0)) s }
    {
        if self.states <= s {
            return false;
        }
        // A `for`, and no `any`: with that the compiler laid the search out eight times, once for each bit of a byte, and judging took 1.2 of the time.
        for a in m.first..m.last {
            if self.decides(x, m, s, a) {
                return m.some;
            }
        }
        !m.some
    }
}

// The modality of the set at b.
pub(crate) fn modal_set(work: &mut [u8], drive: Drive, m: Modality, b: usize, c: usize)
    requires { (b + 32 ≤ length work.old) × (c + 32 ≤ length work.old) }
    ensures { Stored work.old work.new c (mean_atom (table (read drive.entry.file.now)) (logic.modal m.some m.group) (held_at work.old b)) }
{
    let x = take(work, b);
    store(work, c, |s| drive.holds(&x, m, s));
}
