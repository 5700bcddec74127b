//! The call at a place of a plan.

ghost use Rattle.std.specs.Prelude.{◌≡◌, IfOk, option_map};
ghost use Rattle.witness_check.specs.Run.{step_of_call, step_at};
ghost use Rattle.witness_check.specs.Running.{outcome_at};
ghost use Rattle.fault_reasons.specs.Running.{placed_step};

use certificate::Place;
use nfs_history::{KnownCalls, RecordedCall};
use nfs3_types::{NfsCall, Outcome};
use std::alloc::{AllocError, Global};

/// A call at a place, and how it came out.
#[derive(Drop)]
pub struct Placed {
    /// The call's number.
    pub number: u64,
    /// The call.
    pub call: NfsCall,
    /// With the reply that the history has, or as taken.
    pub outcome: Outcome,
}

/// The outcome at a place of a call that came out so, where it has one.
fn outcome_at(place: Place, received: Option<Outcome>) -> Option<Outcome>
    ensures { result ≡ outcome_at place received }
{
    match place {
        Place::Answered(_) => received,
        Place::Taken(_, count) => Some(Outcome::Taken(count)),
    }
}

/// The step of a call at a place, where it has one.
fn step_of_call(place: Place, recorded: RecordedCall) -> Option<Placed>
    ensures { option_map placed_step result ≡ step_of_call place recorded }
{
    let (Place::Answered(number) | Place::Taken(number, _)) = place;
    let (call, received) = recorded.into_judged()?;
    let outcome = outcome_at(place, received)?;
    Some(Placed {
        number,
        call,
        outcome,
    })
}

/// The call at a place with its outcome, where it has one. An `Err` means that memory ran out.
pub fn placed_at(
    alloc: Global,
    history: &KnownCalls<'_>,
    place: Place,
) -> Result<Option<Placed>, AllocError>
    // It is the step of the verdict.
    ensures { IfOk result (λ found. option_map placed_step found ≡ step_at history.now.calls place) }
{
    let (Place::Answered(number) | Place::Taken(number, _)) = place;
    match history.call(alloc, number)? {
        Some(recorded) => Ok(step_of_call(place, recorded)),
        None => Ok(None),
    }
}
