// How large the parts of a case may be.

// What a judge may set for itself: the length of the longest file, and how many states there can be.
#[derive(Clone, Copy)]
pub struct Limits {
    pub longest: usize,
    pub states: usize,
}

// How many nodes there can be, for every judge.
pub const NODES: usize = 64;

// How many bytes of padding there can be between two sections, likewise.
pub const PADDING: usize = 3;
