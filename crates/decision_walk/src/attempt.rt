//! A call that is tried in a state.

ghost use Rattle.std.specs.Prelude.{◌≡◌, IfOk, IfSome, Some};
ghost use Rattle.certificate.specs.Plan.{call_of};
ghost use Rattle.decision_walk.specs.Placings.{CoversPlans};

use crate::eras::way_lost;
use crate::machine::HistoryMachine;
use crate::walk_state::WalkState;
use crate::why::Why;
use certificate::Place;
use decision_core::Stop;
use decision_steps::{PlaceFault, State};
use nfs3_types::{NfsCall, Outcome};

impl<'h> HistoryMachine<'h> {
    /// Tries a call, which came out so, in a state. Nothing is found where no plan lets it come out so there.
    pub(crate) fn try_call(
        &self,
        state: &WalkState,
        place: Place,
        call: &NfsCall,
        outcome: &Outcome,
    ) -> Result<Option<State>, Stop<Why>>
        ensures covers { IfOk result (λ found. CoversPlans self.now.history.now.known state.now (call_of place) call.now outcome.now found) }
        ensures origin { IfOk result (λ found. IfSome found (λ next. next.origin ≡ state.now.origin)) }
    {
        let number = place.number();
        let Some(object) = self.object_made(number) else {
            return Err(way_lost());
        };
        let profile = self.history.profile();
        match state
            .stands
            .place(self.alloc, profile, object, call, outcome)
        {
            Ok(next) => Ok(Some(next)),
            Err(PlaceFault::NotLegal) => Ok(None),
            Err(PlaceFault::HandleNotGiven) => Err(Stop::NotCovered(Why::HandleNotGiven(number))),
            Err(PlaceFault::NoMemory) => Err(Stop::NoMemory),
        }
    }
}
