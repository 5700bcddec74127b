//! What watches a search.

/// How far a search is.
#[derive(Clone, Copy)]
pub struct Progress {
    /// How many branches the workers took.
    pub turns: u64,
    /// The most calls and crashes that one of them placed.
    pub depth: usize,
    /// How many calls the history has.
    pub calls: usize,
    /// How many states were claimed as new.
    pub states: u64,
}

/// What is told of each branch that is taken.
pub trait SearchGate {
    /// Worker `worker`, from 0 on, has taken a branch and pushed what follows. Until this returns it is at that branch.
    fn at(&self, worker: u32);

    /// How far the search is, about once a second; the first time when it has taken a second. Nothing is done with it, unless a
    /// gate says otherwise.
    fn tell(&self, _progress: Progress) {}

    /// Whether the search is to end without a certificate. It is asked before each branch, and after each step of a sweep. It isn't,
    /// unless a gate says otherwise.
    fn is_over(&self) -> bool {
        false
    }
}

/// A gate that is always open.
pub struct OpenSearch;

impl SearchGate for OpenSearch {
    fn at(&self, _worker: u32) {}
}
