//! Where a call may be held.

/// How far a call is.
#[derive(Clone, Copy)]
pub enum Point {
    /// It has begun: it stands in the history.
    Begun,
    /// It has taken its objects.
    Locked,
    /// It has its place in the serial order, and has given its objects back.
    Placed,
    /// What its answer promises is on stable storage.
    Flushed,
}

/// What is told of each point of each call. It may hold a call there by returning late, so that a test can bring about a schedule.
pub trait Gate: Drop {
    /// The call of this lane has come so far.
    fn at(&self, lane: u32, point: Point);

    /// Whether it listens: then a call comes to each point by itself. For a gate that doesn't, the book takes the last steps of a call
    /// one behind the other at one hold of its lock: a call whose reply promises nothing is placed and answered, another one is put on
    /// stable storage and answered. Such a gate may not be told of `Flushed`.
    fn listens(&self) -> bool {
        true
    }
}

/// A gate that is always open.
#[derive(Clone, Copy, Drop)]
pub struct OpenGate;

impl Gate for OpenGate {
    fn at(&self, _lane: u32, _point: Point) {}

    fn listens(&self) -> bool {
        false
    }
}
