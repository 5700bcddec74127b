//! What is decided of a history.

use certificate::Certificate;
use decision_walk::Why;

/// Where no witness can go on.
#[derive(Drop)]
pub struct Refusal {
    /// The number of the event, from 1: the reply of the call. With the calls that are open then answered as they are later, or not at
    /// all, it is the first that no order explains.
    pub event: u64,
    /// The number of the call, from 1.
    pub call: u64,
    /// The calls that are open when the event comes.
    pub open: Vec<u64>,
}

/// Why nothing is decided.
#[derive(Clone, Copy, Drop)]
pub enum Undecided {
    /// There would be more states at once than may be.
    TooManyStates,
    /// The watch ended the walk.
    Ended,
    /// A step isn't decided.
    NotCovered(Why),
    /// States are left, and none of them gives a certificate that is accepted.
    NotAccepted,
    /// The events have no places of their own for calls and crashes. No history is known where that is so.
    NoEvents,
}

/// What is decided of a history.
#[derive(Drop)]
pub enum Decision {
    /// This certificate is a witness.
    Yes(Certificate),
    /// No certificate is a witness.
    No(Refusal),
    /// Nothing is said.
    Undecided(Undecided),
    /// There is no memory. Nothing is said.
    NoMemory,
}
