//! How a search ends.

use certificate::Certificate;

/// How a search ended.
#[derive(Drop)]
pub enum SearchEnd {
    /// A certificate that is a witness of the history.
    Found(Certificate),
    /// Nothing more was left to try. That doesn't say that there is no witness.
    NotFound,
    /// A worker took as many branches as it may, and some were left then.
    OutOfTurns,
    /// A growth was refused.
    NoMemory,
}
