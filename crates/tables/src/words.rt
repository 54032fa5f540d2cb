// Tables in the work area. A table is `count` words from a base on; each function fills one from others, entry by entry. Where the tables lie is told at each
// call: all are in one area, and which lies below which differs from call to call.
// By index, as `areas::fill` asks, since after a zip a proof knows no entry. What they share is `fill`; split and closure are two lines in each.
ghost use Rattle.std.specs.Prelude.{◌≡◌, ℕ, ◌+◌, ◌≤◌, ◌<◌, length, replicate};
ghost use Rattle.std.specs.Int.Bits.{bit_or, bit_and};
ghost use Rattle.case_model.specs.Areas.{Filled, from};
ghost use Rattle.areas.specs.Runs.{Advanced};

use areas::fill;

// One value everywhere.
pub fn constant(work: &mut [u16], count: usize, c: usize, v: u16)
    requires { c + count ≤ length work.old }
    ensures { Filled work.old work.new c count (λ _. v) }
{
    work[c..c + count].fill(v);
}

// Nothing of an answer's work is left in the area.
pub fn clear(work: &mut [u16])
    ensures { work.new ≡ replicate (length work.old) 0 }
{
    work.fill(0);
}

// Each set for itself.
pub(crate) fn identity(work: &mut [u16], count: usize, c: usize)
    requires { (c + count ≤ length work.old) × (count ≤ 65536) }
    ensures { Filled work.old work.new c count (λ x. x) }
{
    fill(&mut work[c..c + count], |i| i as u16);
}

// The table at a, which lies above.
pub fn copy(work: &mut [u16], count: usize, a: usize, c: usize)
    requires { (c + count ≤ a) × (a + count ≤ length work.old) }
    ensures { Filled work.old work.new c count (from work.old a) }
{
    work.copy_within(a..a + count, c);
}

// The unions of the tables at a and b.
pub(crate) fn union(work: &mut [u16], count: usize, a: usize, b: usize, c: usize)
    requires { (a + count ≤ c) × (b + count ≤ c) × (c + count ≤ length work.old) }
    ensures { Filled work.old work.new c count (λ x. bit_or (from work.old a x) (from work.old b x)) }
{
    let (below, rest) = work.split_at_mut(c);
    fill(&mut rest[..count], |i| below[a + i] | below[b + i]);
}

// Their intersections.
pub(crate) fn intersection(work: &mut [u16], count: usize, a: usize, b: usize, c: usize)
    requires { (a + count ≤ c) × (b + count ≤ c) × (c + count ≤ length work.old) }
    ensures { Filled work.old work.new c count (λ x. bit_and (from work.old a x) (from work.old b x)) }
{
    let (below, rest) = work.split_at_mut(c);
    fill(&mut rest[..count], |i| below[a + i] & below[b + i]);
}

// The table at a of the table at b.
pub(crate) fn chop(work: &mut [u16], count: usize, a: usize, b: usize, c: usize)
    requires { (a + count ≤ c) × (b + count ≤ c) × (c + count ≤ length work.old) × ((x : ℕ) → x < count → from work.old b x < count) }
    ensures { Filled work.old work.new c count (λ x. from work.old a (from work.old b x)) }
{
    let (below, rest) = work.split_at_mut(c);
    fill(&mut rest[..count], |i| below[a + below[b + i] as usize]);
}

// The `count` words after those at c: the same with the set p added.
pub(crate) fn widen(work: &mut [u16], count: usize, c: usize, p: u16)
    requires { c + count + count ≤ length work.old }
    ensures { Filled work.old work.new (c + count) count (λ x. bit_or (from work.old c x) p) }
{
    let (below, rest) = work.split_at_mut(c + count);
    fill(&mut rest[..count], |i| below[c + i] | p);
}

// The `count` words at c: those after them, cut down to the set q.
pub(crate) fn narrow(work: &mut [u16], count: usize, c: usize, q: u16)
    requires { c + count + count ≤ length work.old }
    ensures { Filled work.old work.new c count (λ x. bit_and (from work.old (c + count) x) q) }
{
    let (_, run) = work.split_at_mut(c);
    let (low, high) = run.split_at_mut(count);
    fill(low, |i| high[i] & q);
}

// The table at b, below. Did that change anything?
pub fn advance(work: &mut [u16], count: usize, b: usize, c: usize) -> bool
    requires { (b + count ≤ c) × (c + count ≤ length work.old) }
    ensures { Advanced work.old work.new b c count result }
{
    let (below, rest) = work.split_at_mut(c);
    areas::advance(&mut rest[..count], &below[b..b + count])
}
