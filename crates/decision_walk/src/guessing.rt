//! Steps of a walk that goes on where it isn't decided what a call may lead to: only to find where a certificate may be.

ghost use Rattle.std.specs.Prelude.{◌≡◌, None, IfOk, IfSome, option_copied};
ghost use Rattle.tree_handles.specs.Binding.{object_of};
ghost use Rattle.decision_walk.specs.View.{AllOf, Adds};
ghost use Rattle.decision_walk.specs.Opening.{call_of_history};

use crate::children::put_state;
use crate::machine::HistoryMachine;
use crate::stepping::bytes_brought;
use crate::walk_state::WalkState;
use crate::why::Why;
use certificate::Place;
use decision_core::Stop;
use nfs_history::Meaning;
use nfs3_types::{FileHandle, NfsCall, Outcome};
use tree_answers::{first_handle, second_handle};

impl<'h> HistoryMachine<'h> {
    /// The judged call of this number.
    pub(crate) fn judged(&self, n: u64) -> Option<&NfsCall>
        ensures { option_copied result ≡ call_of_history self.now.history.now.known n }
    {
        let recorded = self.history.find_call(n)?;
        match &recorded.meaning {
            Meaning::Judged(call) => Some(call),
            Meaning::Unjudged => None,
        }
    }

    /// The states in which a call, a WRITE without a reply, wrote all its bytes.
    #[tactic(auto, using(crate::proofs::Origins::none_of))]
    pub fn step_whole(&self, state: &WalkState, n: u64) -> Result<Vec<WalkState>, Stop<Why>>
        ensures { IfOk result (λ states. AllOf state.now.origin states.items) }
    {
        let mut states = Vec::new(self.alloc);
        if state.era == 0 || self.history.eras() < state.era {
            return Ok(states);
        }
        let Some(call) = self.judged(n) else {
            return Ok(states);
        };
        let Some(brought) = bytes_brought(call) else {
            return Ok(states);
        };
        let Ok(count) = u32::try_from(brought) else {
            return Ok(states);
        };
        let outcome = Outcome::Taken(Some(count));
        let place = Place::Taken(n, Some(count));
        self.place_as(&mut states, state, place, call, &outcome)?;
        Ok(states)
    }

    /// The first handle that a call names and that isn't bound.
    fn unknown_handle(&self, state: &WalkState, n: u64) -> Option<&FileHandle>
        ensures { IfSome result (λ handle. object_of state.now.binds handle.now ≡ None) }
    {
        let call = self.judged(n)?;
        let binds = state.stands.binds();
        let first = first_handle(call);
        if binds.object(first.as_slice()).is_none() {
            return Some(first);
        }
        let second = second_handle(call)?;
        if binds.object(second.as_slice()).is_none() {
            Some(second)
        } else {
            None
        }
    }

    /// Puts the state there in which a handle that isn't bound names this object, where it stands and no bound handle names it.
    fn put_guessed(
        &self,
        states: &mut Vec<WalkState>,
        state: &WalkState,
        handle: &FileHandle,
        object: u64,
    ) -> Result<(), Stop<Why>>
        requires { object_of state.now.binds handle.now ≡ None }
        ensures { IfOk result (λ _. Adds state.now.origin states.old.items states.new.items) }
    {
        if state.stands.tree().nodes().node(object).is_none() {
            return Ok(());
        }
        if state.stands.binds().names(object) {
            return Ok(());
        }
        let guessed = state.with_guess(self.alloc, handle, object)?;
        put_state(states, guessed)
    }

    /// The states in which the first handle that a call names and that isn't bound names some object that stands and that no other bound
    /// handle names.
    #[tactic(auto, using(crate::proofs::Origins::none_of))]
    pub fn guesses(&self, state: &WalkState, n: u64) -> Result<Vec<WalkState>, Stop<Why>>
        ensures { IfOk result (λ states. AllOf state.now.origin states.items) }
    {
        let mut states = Vec::new(self.alloc);
        let Some(handle) = self.unknown_handle(state, n) else {
            return Ok(states);
        };
        let Some(last) = self.object_made(n) else {
            return Ok(states);
        };
        for object in 1..last {
            self.put_guessed(&mut states, state, handle, object)?;
        }
        Ok(states)
    }
}
