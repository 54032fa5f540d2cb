// Sets in the byte area: 32 bytes from a base on, state 0 the lowest bit of the first. Each function stores one made of others, byte by byte.
// Beside tables' words.rt: there an entry is a set, here 32 bytes are one, and the clauses say so; what both share is in areas. Places go as there.
ghost use Rattle.std.specs.Prelude.{true, ◌⊎◌, ◌≡◌, ◌+◌, ◌*◌, ◌≤◌, ◌<◌, length};
ghost use Rattle.std.specs.Int.Bits.{bit_or, bit_and};
ghost use Rattle.flc.specs.Sets.{has, set_of};
ghost use Rattle.regular_model.specs.SetBytes.{byte_of};
ghost use Rattle.regular_model.specs.HeldSets.{held_at, Stored};
ghost use Rattle.regular_sets.specs.Views.{Advanced, Taken};

use areas::fill;

// Byte i of the set of all n states.
fn full_byte(n: usize, i: usize) -> u8
    requires { (n ≤ 256) × (i < 32) }
    ensures { result ≡ byte_of (set_of n (λ _. true)) i }
{
    let low = 8 * i;
    if n <= low {
        return 0;
    }
    if low + 8 <= n {
        return 255;
    }
    ((1usize << (n - low)) - 1) as u8
}

// The same, or that of no states.
fn constant_byte(n: usize, full: bool, i: usize) -> u8
    requires { (n ≤ 256) × (i < 32) }
    ensures { result ≡ byte_of (set_of n (λ _. full)) i }
{
    if full { full_byte(n, i) } else { 0 }
}

// All states, or none.
pub fn constant(work: &mut [u8], n: usize, full: bool, c: usize)
    requires { (n ≤ 256) × (c + 32 ≤ length work.old) }
    ensures { Stored work.old work.new c (set_of n (λ _. full)) }
{
    fill(&mut work[c..c + 32], |i| constant_byte(n, full, i));
}

// The set at a.
pub(crate) fn copy(work: &mut [u8], a: usize, c: usize)
    requires { (a + 32 ≤ length work.old) × (c + 32 ≤ length work.old) × ((a + 32 ≤ c) ⊎ (c + 32 ≤ a)) }
    ensures { Stored work.old work.new c (held_at work.old a) }
{
    work.copy_within(a..a + 32, c);
}

// The union of the sets at a and b.
pub(crate) fn union(work: &mut [u8], a: usize, b: usize, c: usize)
    requires { (a + 32 ≤ c) × (b + 32 ≤ c) × (c + 32 ≤ length work.old) }
    ensures { Stored work.old work.new c (bit_or (held_at work.old a) (held_at work.old b)) }
{
    let (below, rest) = work.split_at_mut(c);
    let (set, _) = rest.split_at_mut(32);
    fill(set, |i| below[a + i] | below[b + i]);
}

// Their intersection.
pub(crate) fn intersection(work: &mut [u8], a: usize, b: usize, c: usize)
    requires { (a + 32 ≤ c) × (b + 32 ≤ c) × (c + 32 ≤ length work.old) }
    ensures { Stored work.old work.new c (bit_and (held_at work.old a) (held_at work.old b)) }
{
    let (below, rest) = work.split_at_mut(c);
    let (set, _) = rest.split_at_mut(32);
    fill(set, |i| below[a + i] & below[b + i]);
}

// The set at b, below. Did that change anything?
pub fn advance(work: &mut [u8], b: usize, c: usize) -> bool
    requires { (b + 32 ≤ c) × (c + 32 ≤ length work.old) }
    ensures { Advanced work.old work.new b c result }
{
    let (below, rest) = work.split_at_mut(c);
    let (set, _) = rest.split_at_mut(32);
    areas::advance(set, &below[b..b + 32])
}

// The set at a, taken out.
pub(crate) fn take(work: &[u8], a: usize) -> [u8; 32]
    requires { a + 32 ≤ length work.now }
    ensures { Taken work.now a result }
{
    let mut x = [0u8; 32];
    x.copy_from_slice(&work[a..a + 32]);
    x
}

// Has it state t? No `has`, which takes a number: 32 bytes are none.
pub(crate) fn member(x: &[u8; 32], t: usize) -> bool
    requires { (t < 256) × (length x.now ≡ 32) }
    ensures { result ≡ has (held_at x.now 0) t }
{
    let byte = x[t / 8];
    (byte >> (t % 8)) % 2 == 1
}
