// Internal: runs of a lent area, filled entry by entry, for the crates that keep tables and sets in one.
#![tactic(auto)]

ghost use Rattle.std.specs.Prelude.{◌≡◌, ◌↔◌, false, ℕ, ◌<◌, length, get_or};
ghost use Rattle.areas.specs.Runs.{Same};

// Entry i becomes what f gives of i.
pub fn fill<T: Copy, F: Fn(usize) -> T>(target: &mut [T], f: F)
    requires { (i : ℕ) → i < length target.old → F.pre f i }
    ensures long { length target.new ≡ length target.old }
    ensures gives { (i : ℕ) (d : T) → i < length target.old → F.post f i (get_or target.new i d) }
{
    for (i, x) in target.iter_mut().enumerate() {
        *x = f(i);
    }
}

// Each entry becomes that of the source. Did one change?
// One pass, by the index: to compare the runs by `!=` and then copy took 1.3 times as long, and after a zip with `iter_mut` a proof knows no entry.
pub fn advance<T: Copy + PartialEq>(target: &mut [T], source: &[T]) -> bool
    requires { length source.now ≡ length target.old }
    ensures copied { target.new ≡ source.now }
    ensures told { (result ≡ false) ↔ Same T.eq target.old source.now (length source.now) }
{
    let mut changed = false;
    for (i, x) in target.iter_mut().enumerate() {
        let y = source[i];
        changed |= *x != y;
        *x = y;
    }
    changed
}
