//! The calls at the places of a plan.

use certificate::Place;
use nfs_history::{KnownCalls, RecordedCall};
use nfs3_types::{NfsCall, Outcome};
use std::alloc::{AllocError, Global};

/// A call at a place, and how it came out.
#[derive(Drop)]
pub(crate) struct Placed {
    pub(crate) call: NfsCall,
    pub(crate) outcome: Outcome,
}

/// The outcome at a place of a call that came out so, where it has one.
fn outcome_at(place: Place, received: Option<Outcome>) -> Option<Outcome> {
    match place {
        Place::Answered(_) => received,
        Place::Taken(_, count) => Some(Outcome::Taken(count)),
    }
}

/// The call at a place, where it is a judged one that has an outcome there.
fn step_of_call(place: Place, recorded: RecordedCall) -> Option<Placed> {
    let (call, received) = recorded.into_judged()?;
    let outcome = outcome_at(place, received)?;
    Some(Placed { call, outcome })
}

/// The call at a place of a history, where it is a judged one that has an outcome there.
pub(crate) fn placed_at(
    alloc: Global,
    history: &KnownCalls<'_>,
    place: Place,
) -> Result<Option<Placed>, AllocError> {
    match history.call(alloc, place.number())? {
        Some(recorded) => Ok(step_of_call(place, recorded)),
        None => Ok(None),
    }
}
