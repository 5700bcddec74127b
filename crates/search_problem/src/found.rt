//! The call of a move, read from its messages.

use crate::moves::Move;
use nfs_history::KnownCalls;
use nfs3_types::{NfsCall, Outcome};
use std::alloc::{AllocError, Global};

/// A call that is placed, and how it came out.
pub struct FoundCall {
    /// The call.
    pub call: NfsCall,
    /// The reply that it got, or that it is taken as done.
    pub outcome: Outcome,
}

impl Drop for FoundCall {
    fn drop(self) {
        let FoundCall { call, outcome } = self;
        drop(call);
        drop(outcome);
    }
}

/// How many bytes a WRITE writes that is done in full.
pub fn full_count(call: &NfsCall) -> Option<u32> {
    match call {
        NfsCall::Write(write) => Some(write.count),
        _ => None,
    }
}

/// A call with the outcome that it has where it is placed.
fn with_outcome(call: NfsCall, received: Option<Outcome>, is_taken: bool) -> Option<FoundCall> {
    if is_taken {
        drop(received);
        let outcome = Outcome::Taken(full_count(&call));
        return Some(FoundCall { call, outcome });
    }
    match received {
        Some(outcome) => Some(FoundCall { call, outcome }),
        None => {
            drop(call);
            None
        }
    }
}

/// The call that a move places, where it places one.
pub fn find(
    alloc: Global,
    known: &KnownCalls<'_>,
    chosen: Move,
) -> Result<Option<FoundCall>, AllocError> {
    let (number, is_taken) = match chosen {
        Move::Answer(number) => (number, false),
        Move::Take(number) => (number, true),
        Move::Cut(_) => return Ok(None),
    };
    match known.call(alloc, number)? {
        Some(recorded) => match recorded.into_judged() {
            Some((call, received)) => Ok(with_outcome(call, received, is_taken)),
            None => Ok(None),
        },
        None => Ok(None),
    }
}
