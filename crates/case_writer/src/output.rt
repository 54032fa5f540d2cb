// An area that runs of bytes are written to, each behind the one before.
ghost use Rattle.std.specs.Prelude.{◌≡◌, [], ◌∷◌, ◌+◌, ◌*◌, ◌≤◌, ◌<◌, length};
ghost use Rattle.case_model.specs.Areas.{Laid};
ghost use Rattle.case_model.specs.Bytes.{word, pairs};
ghost use Rattle.case_model.specs.Case.{flat};
ghost use Rattle.case_reader.specs.Read.{triple};
ghost use Rattle.case_writer.specs.Writing.{Writes, total};

use case_reader::Triple;

// The bytes, into an area from a place on.
// A loop, and no `copy_from_slice`, which has a way for runs that overlap: with it the archive for C would need `memmove`.
fn lay(bytes: &[u8], area: &mut [u8], at: usize)
    requires { at + length bytes.now ≤ length area.old }
    ensures { Laid area.old area.new at (at + length bytes.now) bytes.now }
{
    for i in 0..bytes.len() {
        area[at + i] = bytes[i];
    }
}

// The area, and how many of its bytes are written.
// A lent area, and no Vec: it is the caller's for C, and nothing is allocated.
#[derive(Drop)]
pub struct Output<'a> {
    area: &'a mut [u8],
    at: usize,
}

// How much room is left stands at each method, for each needs another length.
impl<'a> Output<'a> {
    pub fn new(area: &'a mut [u8]) -> Output<'a>
        ensures same_area { result.area.ghost_name ≡ area.entry.ghost_name }
        ensures area_value { result.area.now ≡ area.old }
        ensures written { result.at ≡ 0 }
    {
        Output { area, at: 0 }
    }

    // How many bytes are written.
    pub fn written(&self) -> usize
        ensures { result ≡ self.now.at }
    {
        self.at // where the last run ends
    }

    pub fn part(&mut self, bytes: &[u8])
        requires { self.old.at + length bytes.now ≤ length self.old.area.now }
        ensures { Writes self.old self.new bytes.now }
    {
        let end = self.at + bytes.len();
        lay(bytes, self.area, self.at);
        self.at = end;
    }

    pub fn byte(&mut self, x: u8)
        requires { self.old.at + 1 ≤ length self.old.area.now }
        ensures { Writes self.old self.new (x ∷ []) }
    {
        self.area[self.at] = x;
        self.at += 1;
    }

    // A number as two bytes, low byte first.
    fn word(&mut self, x: u16)
        requires { self.old.at + 2 ≤ length self.old.area.now }
        ensures { Writes self.old self.new (word x) }
    {
        self.part(&x.to_le_bytes());
    }

    // A step or a node.
    pub fn triple(&mut self, t: Triple)
        requires bytes { (t.0 < 256) × (t.1 < 256) × (t.2 < 256) }
        requires room { self.old.at + 3 ≤ length self.old.area.now }
        ensures { Writes self.old self.new (flat (triple t ∷ [])) }
    {
        self.part(&[t.0 as u8, t.1 as u8, t.2 as u8]);
    }

    // The pairs of sections of such lengths, where the sections follow the head end to end. Every offset and length fits two bytes because the whole file does.
    pub fn pairs(&mut self, sizes: &[usize])
        requires short { 4 * length sizes.now + total sizes.now < 65536 }
        requires room { self.old.at + 4 * length sizes.now ≤ length self.old.area.now }
        ensures { Writes self.old self.new (pairs (4 * length sizes.now) sizes.now) }
    {
        let mut offset = 4 * sizes.len();
        for &size in sizes {
            self.word(offset as u16);
            self.word(size as u16);
            offset += size;
        }
    }
}
