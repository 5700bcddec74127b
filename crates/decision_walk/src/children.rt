//! The states that come of placing a call.

ghost use Rattle.std.specs.Prelude.{◌≡◌, false, Contains, IfOk, IfSome, IsTrue};
ghost use Rattle.certificate.specs.Plan.{call_of};
ghost use Rattle.decision_walk.specs.View.{Adds};
ghost use Rattle.decision_walk.specs.Placings.{child_of, CoversPoints, HasChildren, HasPlaced, IsMissing, MayNotLose, MakesNoneOpen};

use crate::call_lists::{has_call, is_marked};
use crate::eras::way_lost;
use crate::kept_tree::KeptTree;
use crate::machine::HistoryMachine;
use crate::open_writes::{OpenWrite, open_at};
use crate::settling::may_change;
use crate::walk_state::WalkState;
use crate::why::Why;
use certificate::Place;
use decision_core::Stop;
use decision_steps::State;
use nfs3_types::{NfsCall, Outcome};

/// Puts a state there.
pub(crate) fn put_state(states: &mut Vec<WalkState>, state: WalkState) -> Result<(), Stop<Why>>
    ensures { IfOk result (λ _. Adds state.origin states.old.items states.new.items × Contains states.new.items state) }
{
    if states.push(state).is_err() {
        return Err(Stop::NoMemory);
    }
    Ok(())
}

/// Puts the state there in which a call is placed, with this base.
fn put_child(
    states: &mut Vec<WalkState>,
    state: &WalkState,
    place: Place,
    next: &State,
    writes: &[OpenWrite],
    base: Option<KeptTree>,
) -> Result<(), Stop<Why>>
    requires next { next.now.origin ≡ state.now.origin }
    requires base { IfSome base (λ b. b.origin ≡ state.now.origin) }
    ensures { IfOk result (λ _. Adds state.now.origin states.old.items states.new.items
        × Contains states.new.items (child_of state.now next.now writes.now base (call_of place))) }
{
    put_state(states, state.child(place, next, writes, base)?)
}

impl<'h> HistoryMachine<'h> {
    /// Whether a call is marked, one of this era, not placed, and not forgotten.
    pub(crate) fn is_missing(&self, state: &WalkState, n: u64) -> bool
        ensures { IsTrue result → IsMissing self.now.history.now.known self.now.marks.items state.now }
    {
        if !is_marked(self.marks.as_slice(), n) {
            return false;
        }
        if has_call(state.placed.as_slice(), n) {
            return false;
        }
        if !self.is_answered_after(state.answered_to, n) {
            return false;
        }
        self.era_of(n) == state.era
    }

    /// Whether some marked call of this era isn't placed.
    fn misses_one(&self, state: &WalkState) -> bool
        ensures { IsTrue result → IsMissing self.now.history.now.known self.now.marks.items state.now }
    {
        let last = self.calls_up_to(state.era);
        for back in 0..last {
            let n = last - back;
            if self.is_missing(state, n) {
                return true;
            }
            if self.era_of(n) < state.era {
                return false;
            }
        }
        false
    }

    /// Whether a call may be the first that is lost.
    fn may_lose(&self, state: &WalkState, n: u64) -> bool
        ensures { result ≡ false → MayNotLose self.now.history.now.known self.now.marks.items state.now n }
    {
        if is_marked(self.marks.as_slice(), n) {
            return false;
        }
        !self.misses_one(state)
    }

    /// Puts the states there in which the call is placed: as it stands to the cut, and as the first that is lost, where it may be.
    pub(crate) fn put_children(
        &self,
        states: &mut Vec<WalkState>,
        state: &WalkState,
        place: Place,
        next: &State,
        writes: &[OpenWrite],
    ) -> Result<(), Stop<Why>>
        requires { next.now.origin ≡ state.now.origin }
        ensures { IfOk result (λ _. Adds state.now.origin states.old.items states.new.items × HasChildren self.now.history.now.known self.now.marks.items states.new.items state.now (call_of place) next.now writes.now) }
    {
        put_child(states, state, place, next, writes, state.copy_base()?)?;
        if state.base.is_some() {
            return Ok(());
        }
        if self.history.eras() <= state.era {
            return Ok(());
        }
        if !self.may_lose(state, place.number()) {
            return Ok(());
        }
        put_child(states, state, place, next, writes, Some(state.kept()?))
    }

    /// Tries a call, which came out so and comes to the file of no open WRITE, in a state. Nothing is found where no plan lets it come out so
    /// there.
    pub(crate) fn try_apart(
        &self,
        state: &WalkState,
        place: Place,
        call: &NfsCall,
        outcome: &Outcome,
    ) -> Result<Option<State>, Stop<Why>>
        ensures covers { IfOk result (λ found. CoversPoints self.now.history.now.known self.now.marks.items state.now (call_of place) call.now outcome.now found) }
        ensures origin { IfOk result (λ found. IfSome found (λ next. next.origin ≡ state.now.origin)) }
    {
        let n = place.number();
        if self.write_touched(state, n, call, outcome)?.is_some() || self.makes_open(state, n) {
            return Err(way_lost());
        }
        self.try_call(state, place, call, outcome)
    }

    /// Whether the object that a call makes, if it makes one, is that of an open WRITE's file.
    pub(crate) fn makes_open(&self, state: &WalkState, n: u64) -> bool
        ensures { result ≡ false → MakesNoneOpen self.now.history.now.known state.now n }
    {
        match self.object_made(n) {
            Some(object) => open_at(state.writes.as_slice(), object).is_some(),
            None => true,
        }
    }

    /// Puts all states there to which placing the call, which came out so, may lead, where it comes to the file of no open WRITE.
    pub(crate) fn place_apart(
        &self,
        states: &mut Vec<WalkState>,
        state: &WalkState,
        place: Place,
        call: &NfsCall,
        outcome: &Outcome,
    ) -> Result<(), Stop<Why>>
        ensures { IfOk result (λ _. Adds state.now.origin states.old.items states.new.items × HasPlaced self.now.history.now.known self.now.marks.items states.new.items state.now (call_of place) call.now outcome.now) }
    {
        match self.try_apart(state, place, call, outcome)? {
            Some(next) => self.put_children(states, state, place, &next, state.writes.as_slice()),
            None => Ok(()),
        }
    }

    /// Puts all states there to which placing the call, which came out so, may lead.
    pub(crate) fn place_as(
        &self,
        states: &mut Vec<WalkState>,
        state: &WalkState,
        place: Place,
        call: &NfsCall,
        outcome: &Outcome,
    ) -> Result<(), Stop<Why>>
        ensures { IfOk result (λ _. Adds state.now.origin states.old.items states.new.items × HasPlaced self.now.history.now.known self.now.marks.items states.new.items state.now (call_of place) call.now outcome.now) }
    {
        let n = place.number();
        let Some(one) = self.write_touched(state, n, call, outcome)? else {
            return self.place_apart(states, state, place, call, outcome);
        };
        if may_change(call) {
            self.place_changing(states, state, one, place, call, outcome)
        } else {
            self.place_looking(states, state, one, place, call, outcome)
        }
    }
}
