// Sets of numbers as masks, bit i for number i; of the states of a case of at most 16, as masks of 16 bits.
ghost use Rattle.std.specs.Prelude.{true, ◌≡◌, ◌≤◌};
ghost use Rattle.flc.specs.Sets.{set_of, has};
ghost use Rattle.case_model.specs.Limits.{most_states};

// The set of all of n states; of more than a mask has bits, any set.
// No Option: the program asks before vetting, and it could not fail before.
pub fn all_states(n: usize) -> u16
    ensures { n ≤ most_states → result ≡ set_of n (λ s. true) }
{
    if n <= 16 {
        ((1usize << n) - 1) as u16
    } else {
        0
    }
}

// Is i in the set, of any width?
#[tactic(auto, unfolding(flc::specs::Sets::has))]
pub fn has(set: u64, i: usize) -> bool
    ensures { result ≡ has set i }
{
    i < 64 && (set >> i) % 2 == 1
}

// Is state s in the set?
pub fn holds(set: u16, s: usize) -> bool
    ensures { result ≡ has set s }
{
    has(set as u64, s)
}
