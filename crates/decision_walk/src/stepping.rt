//! One call or crash in a state.

ghost use Rattle.std.specs.Prelude.{◌≡◌, ◌<◌, ◌≤◌, IfOk, Some, length};
ghost use Rattle.nfs_history.specs.Precedence.{call_at};
ghost use Rattle.nfs3_types.specs.declared.replies.Outcome.{Outcome};
ghost use Rattle.decision_walk.specs.View.{Adds, AllOf};
ghost use Rattle.decision_walk.specs.Opening.{call_of_history};
ghost use Rattle.decision_walk.specs.Placings.{bytes_brought, HasPlaced, HasCounts, HasTaken, HasAllOf, HasStepOf, HasStepsOf};

use crate::eras::way_lost;
use crate::machine::HistoryMachine;
use crate::settling::may_change;
use crate::walk_state::WalkState;
use crate::why::Why;
use certificate::Place;
use decision_core::Stop;
use nfs_history::{Meaning, RecordedCall};
use nfs3_types::{NfsCall, Outcome};

/// How many bytes a WRITE without a reply may have brought, of which each count is tried.
const MOST_BYTES: usize = 64;

/// How many bytes a WRITE brought.
pub(crate) fn bytes_brought(call: &NfsCall) -> Option<usize>
    ensures { result ≡ bytes_brought call.now }
{
    match call {
        NfsCall::Write(write) => Some(write.bytes.as_slice().len()),
        _ => None,
    }
}

impl<'h> HistoryMachine<'h> {
    /// Puts the states there to which a WRITE may lead that wrote fewer bytes than this.
    fn place_counts(
        &self,
        states: &mut Vec<WalkState>,
        state: &WalkState,
        n: u64,
        call: &NfsCall,
        counts: u32,
    ) -> Result<(), Stop<Why>>
        ensures { IfOk result (λ _. Adds state.now.origin states.old.items states.new.items × HasCounts self.now.history.now.known self.now.marks.items states.new.items state.now n call.now counts) }
    {
        for count in 0..counts {
            let outcome = Outcome::Taken(Some(count));
            let place = Place::Taken(n, Some(count));
            self.place_as(states, state, place, call, &outcome)?;
        }
        Ok(())
    }

    /// Puts the states there to which a WRITE may lead that is taken without a reply, and brought so many bytes.
    pub(crate) fn take_write(
        &self,
        states: &mut Vec<WalkState>,
        state: &WalkState,
        n: u64,
        call: &NfsCall,
        brought: usize,
    ) -> Result<(), Stop<Why>>
        requires history { call_of_history self.now.history.now.known n ≡ Some call.now }
        requires brought { bytes_brought call.now ≡ Some brought }
        ensures { IfOk result (λ _. Adds state.now.origin states.old.items states.new.items × HasTaken self.now.history.now.known self.now.marks.items states.new.items state.now n call.now) }
    {
        if self.place_open(states, state, n, call)? {
            return Ok(());
        }
        if self.writes_nowhere(state, n, call) {
            return Ok(());
        }
        if brought > MOST_BYTES {
            return Err(Stop::NotCovered(Why::LongWrite(n)));
        }
        self.place_counts(states, state, n, call, brought as u32 + 1)
    }

    /// Puts the states there to which a call may lead that is taken without a reply.
    fn place_taken(
        &self,
        states: &mut Vec<WalkState>,
        state: &WalkState,
        n: u64,
        call: &NfsCall,
    ) -> Result<(), Stop<Why>>
        requires { call_of_history self.now.history.now.known n ≡ Some call.now }
        ensures { IfOk result (λ _. Adds state.now.origin states.old.items states.new.items × HasTaken self.now.history.now.known self.now.marks.items states.new.items state.now n call.now) }
    {
        if !may_change(call) {
            return Ok(());
        }
        match bytes_brought(call) {
            Some(brought) => self.take_any_write(states, state, n, call, brought),
            None => {
                let outcome = Outcome::Taken(None);
                let place = Place::Taken(n, None);
                self.place_any(states, state, place, call, &outcome)
            }
        }
    }

    /// Puts the states there to which a call may lead by its reply, where it has one.
    fn place_answered(
        &self,
        states: &mut Vec<WalkState>,
        state: &WalkState,
        n: u64,
        recorded: &RecordedCall,
        call: &NfsCall,
    ) -> Result<(), Stop<Why>>
        requires { call_of_history self.now.history.now.known n ≡ Some call.now }
        ensures { IfOk result (λ _. Adds state.now.origin states.old.items states.new.items
            × ((outcome : Outcome) → recorded.now.outcome ≡ Some outcome → HasPlaced self.now.history.now.known self.now.marks.items states.new.items state.now n call.now outcome)) }
    {
        match &recorded.outcome {
            Some(outcome) => {
                let place = Place::Answered(n);
                self.place_any(states, state, place, call, outcome)
            }
            None => Ok(()),
        }
    }

    /// Puts all states there to which a call may lead, however it came out.
    fn place_recorded(
        &self,
        states: &mut Vec<WalkState>,
        state: &WalkState,
        n: u64,
        recorded: &RecordedCall,
    ) -> Result<(), Stop<Why>>
        requires { call_at self.now.history.now.known.calls n ≡ Some recorded.now }
        ensures { IfOk result (λ _. Adds state.now.origin states.old.items states.new.items × HasAllOf self.now.history.now.known self.now.marks.items states.new.items state.now n recorded.now) }
    {
        let Meaning::Judged(call) = &recorded.meaning else {
            return Ok(());
        };
        self.place_answered(states, state, n, recorded, call)?;
        if recorded.end.is_some() {
            return Ok(());
        }
        self.place_taken(states, state, n, call)
    }

    /// Puts the states there to which a call may lead.
    fn step_call(
        &self,
        states: &mut Vec<WalkState>,
        state: &WalkState,
        n: u64,
    ) -> Result<(), Stop<Why>>
        requires late { 0 < state.now.era }
        requires inside { state.now.era ≤ self.now.history.now.known.eras }
        requires call { n ≤ length self.now.history.now.known.calls }
        ensures { IfOk result (λ _. Adds state.now.origin states.old.items states.new.items × HasStepOf self.now.history.now.known self.now.marks.items states.new.items n state.now) }
    {
        let Some(recorded) = self.history.find_call(n) else {
            return Ok(());
        };
        if recorded.era != state.era {
            return Ok(());
        }
        self.place_recorded(states, state, n, recorded)
    }

    /// Puts the state there to which the crash with this number may lead.
    fn step_crash(
        &self,
        states: &mut Vec<WalkState>,
        state: &WalkState,
        n: u64,
    ) -> Result<(), Stop<Why>>
        requires { length self.now.history.now.known.calls < n }
        ensures { IfOk result (λ _. Adds state.now.origin states.old.items states.new.items × HasStepOf self.now.history.now.known self.now.marks.items states.new.items n state.now) }
    {
        if n - self.history.calls() != state.era {
            return Ok(());
        }
        let Some(era) = state.era.checked_add(1) else {
            return Err(way_lost());
        };
        let child = state.crashed(n, era)?;
        if states.push(child).is_err() {
            return Err(Stop::NoMemory);
        }
        Ok(())
    }

    /// Puts the states there to which a call or a crash may lead, where it isn't placed.
    fn step_one(
        &self,
        states: &mut Vec<WalkState>,
        state: &WalkState,
        n: u64,
    ) -> Result<(), Stop<Why>>
        requires late { 0 < state.now.era }
        requires inside { state.now.era ≤ self.now.history.now.known.eras }
        ensures { IfOk result (λ _. Adds state.now.origin states.old.items states.new.items × HasStepOf self.now.history.now.known self.now.marks.items states.new.items n state.now) }
    {
        if self.is_told(state, n) {
            return Ok(());
        }
        if n <= self.history.calls() {
            return self.step_call(states, state, n);
        }
        self.step_crash(states, state, n)
    }

    /// The states to which each of these calls and crashes may lead that isn't placed.
    #[tactic(auto, using(crate::proofs::Origins::none_of))]
    pub fn step_calls(&self, state: &WalkState, calls: &[u64]) -> Result<Vec<WalkState>, Stop<Why>>
        ensures steps { IfOk result (λ states. HasStepsOf self.now.history.now.known self.now.marks.items states.items calls.now state.now) }
        ensures origin { IfOk result (λ states. AllOf state.now.origin states.items) }
    {
        if state.era == 0 || self.history.eras() < state.era {
            return Err(way_lost());
        }
        let mut states = Vec::new(self.alloc);
        for call in calls {
            self.step_one(&mut states, state, *call)?;
        }
        Ok(states)
    }
}
