// The set of the states that pass a test, byte by byte.
ghost use Rattle.std.specs.Prelude.{ℕ, ◌≡◌, ◌+◌, ◌≤◌, ◌<◌, length};
ghost use Rattle.regular_model.specs.SetBytes.{byte_of};
ghost use Rattle.regular_model.specs.HeldSets.{Stored};
ghost use Rattle.regular_sets.specs.Views.{Tells};

use areas::fill;

// Byte i: those of the states 8i to 8i + 7, the lowest in its lowest bit.
// A loop, and no fold: the test is a closure already, and a second one around it would need a clause on the bits so far.
fn byte_by<F: Fn(usize) -> bool>(test: &F, i: usize) -> u8
    requires callable { F.IsAlwaysCallable test.now }
    requires inside { i < 32 }
    ensures { (x : ℕ) → Tells (F.post test.now) x → result ≡ byte_of x i }
{
    let mut byte: u8 = 0;
    for t in (0..8).rev() {
        byte = 2 * byte + u8::from(test(8 * i + t));
    }
    byte
}

// The whole set, to c.
pub(crate) fn store<F: Fn(usize) -> bool>(work: &mut [u8], c: usize, test: F)
    requires callable { F.IsAlwaysCallable test }
    requires room { c + 32 ≤ length work.old }
    ensures { (x : ℕ) → Tells (F.post test) x → Stored work.old work.new c x }
{
    fill(&mut work[c..c + 32], |i| byte_by(&test, i));
}
