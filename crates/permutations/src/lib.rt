// Does a list of bytes name each number below a given one once? docs/SPECIFICATION.md, clause 13.1.
#![tactic(auto)]

ghost use Rattle.std.specs.Prelude.{◌≡◌};
ghost use Rattle.flc.specs.Permutations.{times, is_permutation};

// How often a number stands in the list.
fn times(list: &[u8], number: usize) -> usize
    ensures { result ≡ times number list.now }
{
    list.iter()
        .filter(|item| usize::from(**item) == number)
        .count()
}

// The length is looked at first, so that a long list of another length costs nothing.
pub fn is_permutation(list: &[u8], n: usize) -> bool
    ensures { result ≡ is_permutation n list.now }
{
    list.len() == n && (0..n).all(|number| times(list, number) == 1)
}
