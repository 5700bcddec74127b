//! What a search adds to a plan, step by step.

/// What a branch of a search adds to the one that it grows from. Calls are named by their numbers.
#[derive(Clone, Copy, PartialEq, Eq)]
pub enum Move {
    /// A call is placed with its reply.
    Answer(u64),
    /// A call is placed as done in full, though no reply came.
    Take(u64),
    /// The era ends, and so many of its places are kept.
    Cut(usize),
}
