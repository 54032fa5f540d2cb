// The file that a rewriting makes: the labels and the steps as they were, the new nodes and the root, the start states as they were.
ghost use Rattle.std.specs.Prelude.{◌≡◌, ◌+◌, ◌*◌, ◌≤◌, ◌<◌, length};
ghost use Rattle.case_model.specs.Areas.{Laid};
ghost use Rattle.case_model.specs.Bytes.{section};
ghost use Rattle.case_model.specs.Case.{at, flat, write};
ghost use Rattle.case_model.specs.Limits.{sections, standard};
ghost use Rattle.case_model.specs.Rewriting.{renamed};
ghost use Rattle.case_model.specs.Rows.{sound, refusals};
ghost use Rattle.case_reader.specs.Read.{triple};
ghost use Rattle.case_writer.specs.Writing.{Writes, whole};
ghost use Rattle.law_shapes.specs.Shapes.{placed, added, named};
ghost use Rattle.rewritten_file.specs.Plans.{ByteTriple, Planned, Measured, renewed, rule_bytes};

use case_reader::{Kind, Triple, kind_of, node, root, section_offset, section_size};
use case_writer::{Output, Sizes};
use law_shapes::Shape;

// What is done at node j of a file, and how many nodes there are then. That it is what a law does stands in clauses, and not in the type with the file: the
// must-fail edit root_left renames by a plan that such a type excludes.
#[derive(Clone, Copy)]
pub struct Plan {
    pub shape: Shape,
    pub j: usize,
    pub nodes: usize,
}

impl Plan {
    // What the number of a node that is named becomes.
    fn name(self, old: usize) -> usize
        requires { old < 256 }
        ensures { result ≡ named self.j self.shape old }
    {
        let j = self.j;
        match self.shape {
            Shape::Redirect { to, .. } => { if old == j { to } else { old } }
            _ => {
                if old < j {
                    old
                } else {
                    old + self.shape.added()
                }
            }
        }
    }

    // A node with the nodes that it names renamed.
    fn rename(self, t: Triple) -> Triple
        requires { ByteTriple t }
        ensures { triple result ≡ renamed (named self.j self.shape) (triple t) }
    {
        match kind_of(t) {
            Kind::Atom(_) => t,
            Kind::Variable => t,
            Kind::Two(_) => Triple(t.0, self.name(t.1), self.name(t.2)),
            Kind::Binder(_) => Triple(t.0, t.1, self.name(t.2)),
        }
    }

    // Node i of those put in place of node j.
    fn place(self, i: usize) -> Triple
        requires { i ≤ added self.shape }
        ensures { triple result ≡ at (placed self.shape) i }
    {
        match self.shape {
            Shape::Redirect { node, .. } => node,
            Shape::One(x) => x,
            Shape::Two(x, y) => { if i == 0 { x } else { y } }
            Shape::Three(x, y, z) => match i {
                0 => x,
                1 => y,
                _ => z,
            },
        }
    }

    // Node i of the new file.
    fn new_node(self, file: &[u8], i: usize) -> Triple
        requires { Planned file.now self × (i < self.nodes) }
        ensures { triple result ≡ at (renewed file.now self).nodes i }
    {
        if i < self.j {
            self.rename(node(file, i))
        } else if i - self.j <= self.shape.added() {
            self.place(i - self.j)
        } else {
            self.rename(node(file, i - self.shape.added()))
        }
    }

    // How many bytes each section of the new file has.
    pub fn sizes(self, file: &[u8]) -> Sizes
        requires { Planned file.now self }
        ensures { Measured file.now self result }
    {
        Sizes {
            labels: section_size(file, 0),
            steps: section_size(file, 1),
            rule: 3 * self.nodes + 1,
            starts: section_size(file, 3),
        }
    }

    // Writes the new nodes.
    fn put_nodes(self, file: &[u8], output: &mut Output)
        requires { Planned file.now self × (output.old.at + 3 * self.nodes ≤ length output.old.area.now) }
        ensures { Writes output.old output.new (flat (renewed file.now self).nodes) }
    {
        for i in 0..self.nodes {
            output.triple(self.new_node(file, i));
        }
    }

    // Writes the new rule: the nodes and the root.
    fn put_rule(self, file: &[u8], output: &mut Output)
        requires { Planned file.now self × (output.old.at + 3 * self.nodes + 1 ≤ length output.old.area.now) }
        ensures { Writes output.old output.new (rule_bytes (renewed file.now self)) }
    {
        self.put_nodes(file, output);
        output.byte(self.name(root(file)) as u8);
    }

    // Writes the sections of the new file behind their pairs.
    fn put(self, file: &[u8], sizes: Sizes, output: &mut Output)
        requires { Planned file.now self × Measured file.now self sizes × (output.old.at + whole sizes ≤ length output.old.area.now) }
        ensures { Writes output.old output.new (write (renewed file.now self)) }
    {
        output.pairs(&sizes.each());
        put_section(file, 0, output);
        put_section(file, 1, output);
        self.put_rule(file, output);
        put_section(file, 3, output);
    }

    // Writes the new file at the start of an area. The answer is where it ends.
    #[tactic(auto, using(case_writer::proofs::Runs::written_up_to))]
    pub fn write(self, file: &[u8], sizes: Sizes, out: &mut [u8]) -> usize
        requires { Planned file.now self × Measured file.now self sizes × (whole sizes ≤ length out.old) }
        ensures { Laid out.old out.new 0 result (write (renewed file.now self)) }
    {
        let mut output = Output::new(out);
        self.put(file, sizes, &mut output);
        output.written()
    }
}

// Writes section k of the old file as it was.
fn put_section(file: &[u8], k: usize, output: &mut Output)
    requires { (refusals standard file.now ≡ sound) × (k < sections) × (output.old.at + length (section file.now k) ≤ length output.old.area.now) }
    ensures { Writes output.old output.new (section file.now k) }
{
    let start = section_offset(file, k);
    let end = start + section_size(file, k);
    output.part(&file[start..end]);
}
