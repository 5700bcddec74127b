//! What watches sweeps.

/// What is told how far a sweep is.
pub trait SweepWatch {
    /// A sweep placed a call, or gave it up; so many moves led there.
    fn at(&mut self, depth: usize);

    /// Whether the sweeps are to end without a plan. It is asked after each `at`.
    fn is_over(&self) -> bool;
}
