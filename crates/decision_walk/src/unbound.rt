//! Calls that name a handle which no reply gave: it is tried with each object that exists.

ghost use Rattle.std.specs.Prelude.{◌≡◌, ℕ, List, true, Some, None, IfOk, IsTrue};
ghost use Rattle.std.specs.List.{AllByRecursion};
ghost use Rattle.certificate.specs.Plan.{call_of};
ghost use Rattle.decision_steps.specs.Known.{is_failure, knows_handles};
ghost use Rattle.decision_walk.specs.View.{AllOf, Adds, AddsFrom};
ghost use Rattle.decision_walk.specs.Opening.{call_of_history};
ghost use Rattle.decision_walk.specs.Placings.{bytes_brought, HasPlaced, HasTaken};
ghost use Rattle.decision_walk.specs.Guessing.{HasNamesMore, HasGuess, HasGuesses, HasGuessesOf};
ghost use Rattle.tree_handles.specs.Binding.{object_of};
ghost use Rattle.tree_answers.specs.Asked.{second_handle};

use crate::children::put_state;
use crate::eras::way_lost;
use crate::machine::HistoryMachine;
use crate::walk_state::WalkState;
use crate::why::Why;
use certificate::Place;
use decision_core::Stop;
use decision_steps::{PlaceFault, is_failure, knows_handles};
use nfs3_types::{FileHandle, NfsCall, Outcome};
use tree_answers::{first_handle, second_handle};

/// How many objects may exist where each is tried.
const MOST_OBJECTS: usize = 64;

/// Whether few objects exist.
fn are_few(state: &WalkState) -> bool {
    state.stands.tree().nodes().count() <= MOST_OBJECTS as u64
}

/// Whether a call names a handle that isn't bound, and it is told apart which of the objects it names that exist, or none.
pub(crate) fn is_guessed(state: &WalkState, call: &NfsCall) -> bool {
    !knows_handles(state.stands.binds(), call) && are_few(state)
}

impl<'h> HistoryMachine<'h> {
    /// Whether a failure is right only where a handle that isn't bound names an object that exists.
    fn is_refused(
        &self,
        state: &WalkState,
        n: u64,
        call: &NfsCall,
        outcome: &Outcome,
    ) -> Result<bool, Stop<Why>>
        requires { is_failure outcome.now ≡ true }
        ensures { IfOk result (λ refused. IsTrue refused → HasNamesMore self.now.history.now.known self.now.marks.items state.now n call.now outcome.now) }
    {
        let Some(object) = self.object_made(n) else {
            return Err(way_lost());
        };
        if self.makes_open(state, n) {
            return Err(way_lost());
        }
        let profile = self.history.profile();
        match state
            .stands
            .place(self.alloc, profile, object, call, outcome)
        {
            Err(PlaceFault::HandleNotGiven) => return Ok(true),
            Err(PlaceFault::NoMemory) => return Err(Stop::NoMemory),
            Err(PlaceFault::NotLegal) => {}
            Ok(_) => {}
        }
        Ok(false)
    }

    /// Whether a call can come out so only where a handle that it names, and that isn't bound, names an object that exists.
    fn asks_for_handle(
        &self,
        state: &WalkState,
        n: u64,
        call: &NfsCall,
        outcome: &Outcome,
    ) -> Result<bool, Stop<Why>>
        ensures { IfOk result (λ asks. IsTrue asks → HasNamesMore self.now.history.now.known self.now.marks.items state.now n call.now outcome.now) }
    {
        if knows_handles(state.stands.binds(), call) {
            return Ok(false);
        }
        if is_failure(outcome) {
            self.is_refused(state, n, call, outcome)
        } else {
            Ok(true)
        }
    }

    /// Puts the state there in which a handle that isn't bound names this object, unless it is known not to.
    fn put_guess(
        &self,
        states: &mut Vec<WalkState>,
        state: &WalkState,
        handle: &FileHandle,
        object: u64,
    ) -> Result<(), Stop<Why>>
        requires { object_of state.now.binds handle.now ≡ None }
        ensures { IfOk result (λ _. Adds state.now.origin states.old.items states.new.items × HasGuess self.now.history.now.known states.new.items state.now handle.now object) }
    {
        if self.is_barred(state, handle, object) {
            return Ok(());
        }
        let guess = state.with_guess(self.alloc, handle, object)?;
        put_state(states, guess)
    }

    /// Puts the states there in which a handle that isn't bound names one of the objects that exist, if it isn't bound.
    fn put_guesses(
        &self,
        states: &mut Vec<WalkState>,
        state: &WalkState,
        n: u64,
        handle: &FileHandle,
    ) -> Result<(), Stop<Why>>
        ensures { IfOk result (λ _. Adds state.now.origin states.old.items states.new.items × HasGuessesOf self.now.history.now.known states.new.items state.now handle.now) }
    {
        if state.stands.binds().object(handle.as_slice()).is_some() {
            return Ok(());
        }
        let objects = state.stands.tree().nodes().objects()?;
        if objects.len() > MOST_OBJECTS {
            return Err(Stop::NotCovered(Why::HandleNotGiven(n)));
        }
        for object in &objects {
            self.put_guess(states, state, handle, *object)?;
        }
        Ok(())
    }

    /// The same for the second handle of a call, if it has one.
    fn put_second_guesses(
        &self,
        states: &mut Vec<WalkState>,
        state: &WalkState,
        n: u64,
        call: &NfsCall,
    ) -> Result<(), Stop<Why>>
        ensures { IfOk result (λ _. Adds state.now.origin states.old.items states.new.items
            × ((handle : List ℕ) → second_handle call.now ≡ Some handle → HasGuessesOf self.now.history.now.known states.new.items state.now handle)) }
    {
        match second_handle(call) {
            Some(handle) => self.put_guesses(states, state, n, handle),
            None => Ok(()),
        }
    }

    /// The states in which a handle that a call names, and that isn't bound, names one of the objects that exist.
    fn all_guesses(
        &self,
        state: &WalkState,
        n: u64,
        call: &NfsCall,
    ) -> Result<Vec<WalkState>, Stop<Why>>
        ensures guesses { IfOk result (λ guesses. HasGuesses self.now.history.now.known self.now.marks.items guesses.items state.now call.now) }
        ensures origin { IfOk result (λ guesses. AllOf state.now.origin guesses.items) }
    {
        let mut guesses = Vec::new(self.alloc);
        self.put_guesses(&mut guesses, state, n, first_handle(call))?;
        self.put_second_guesses(&mut guesses, state, n, call)?;
        Ok(guesses)
    }

    /// Puts the states there to which a call leads from each of these.
    fn place_in_guesses(
        &self,
        states: &mut Vec<WalkState>,
        guesses: &[WalkState],
        place: Place,
        call: &NfsCall,
        outcome: &Outcome,
    ) -> Result<(), Stop<Why>>
        ensures { IfOk result (λ _. AddsFrom guesses.now states.old.items states.new.items
            × AllByRecursion (λ guess. HasPlaced self.now.history.now.known self.now.marks.items states.new.items guess (call_of place) call.now outcome.now) guesses.now) }
    {
        for guess in guesses {
            self.place_as(states, guess, place, call, outcome)?;
        }
        Ok(())
    }

    /// Puts all states there to which placing the call, which came out so, may lead, where at most one handle that it names isn't bound.
    fn place_once_guessed(
        &self,
        states: &mut Vec<WalkState>,
        state: &WalkState,
        place: Place,
        call: &NfsCall,
        outcome: &Outcome,
    ) -> Result<(), Stop<Why>>
        ensures { IfOk result (λ _. Adds state.now.origin states.old.items states.new.items × HasPlaced self.now.history.now.known self.now.marks.items states.new.items state.now (call_of place) call.now outcome.now) }
    {
        let n = place.number();
        if !self.asks_for_handle(state, n, call, outcome)? {
            return self.place_as(states, state, place, call, outcome);
        }
        let guesses = self.all_guesses(state, n, call)?;
        self.place_in_guesses(states, guesses.as_slice(), place, call, outcome)
    }

    /// The same from each of these.
    fn place_in_guesses_again(
        &self,
        states: &mut Vec<WalkState>,
        guesses: &[WalkState],
        place: Place,
        call: &NfsCall,
        outcome: &Outcome,
    ) -> Result<(), Stop<Why>>
        ensures { IfOk result (λ _. AddsFrom guesses.now states.old.items states.new.items
            × AllByRecursion (λ guess. HasPlaced self.now.history.now.known self.now.marks.items states.new.items guess (call_of place) call.now outcome.now) guesses.now) }
    {
        for guess in guesses {
            self.place_once_guessed(states, guess, place, call, outcome)?;
        }
        Ok(())
    }

    /// Puts all states there to which placing the call, which came out so, may lead, where it asks for an object by a handle that isn't bound.
    fn place_asking(
        &self,
        states: &mut Vec<WalkState>,
        state: &WalkState,
        place: Place,
        call: &NfsCall,
        outcome: &Outcome,
    ) -> Result<(), Stop<Why>>
        requires { HasNamesMore self.now.history.now.known self.now.marks.items state.now (call_of place) call.now outcome.now }
        ensures { IfOk result (λ _. Adds state.now.origin states.old.items states.new.items × HasPlaced self.now.history.now.known self.now.marks.items states.new.items state.now (call_of place) call.now outcome.now) }
    {
        let guesses = self.all_guesses(state, place.number(), call)?;
        self.place_in_guesses_again(states, guesses.as_slice(), place, call, outcome)
    }

    /// The same of a call that fits as it is: its handles that aren't bound name objects that exist, or none does.
    fn place_either(
        &self,
        states: &mut Vec<WalkState>,
        state: &WalkState,
        place: Place,
        call: &NfsCall,
        outcome: &Outcome,
    ) -> Result<(), Stop<Why>>
        requires { call_of_history self.now.history.now.known (call_of place) ≡ Some call.now }
        ensures { IfOk result (λ _. Adds state.now.origin states.old.items states.new.items × HasPlaced self.now.history.now.known self.now.marks.items states.new.items state.now (call_of place) call.now outcome.now) }
    {
        let n = place.number();
        let guesses = self.all_guesses(state, n, call)?;
        self.place_in_guesses_again(states, guesses.as_slice(), place, call, outcome)?;
        let barred = self.barred(state, n, call)?;
        self.place_as(states, &barred, place, call, outcome)
    }

    /// Puts all states there to which placing the call, which came out so, may lead. A handle that isn't bound names one of the objects that exist, or, where
    /// the call fits so, none. Where many objects exist that isn't told apart.
    pub(crate) fn place_any(
        &self,
        states: &mut Vec<WalkState>,
        state: &WalkState,
        place: Place,
        call: &NfsCall,
        outcome: &Outcome,
    ) -> Result<(), Stop<Why>>
        requires { call_of_history self.now.history.now.known (call_of place) ≡ Some call.now }
        ensures { IfOk result (λ _. Adds state.now.origin states.old.items states.new.items × HasPlaced self.now.history.now.known self.now.marks.items states.new.items state.now (call_of place) call.now outcome.now) }
    {
        if knows_handles(state.stands.binds(), call) {
            return self.place_as(states, state, place, call, outcome);
        }
        if self.asks_for_handle(state, place.number(), call, outcome)? {
            return self.place_asking(states, state, place, call, outcome);
        }
        if !are_few(state) {
            return self.place_as(states, state, place, call, outcome);
        }
        self.place_either(states, state, place, call, outcome)
    }

    /// Puts the states there to which a WRITE leads that is taken without a reply, from each of these.
    fn take_in_guesses(
        &self,
        states: &mut Vec<WalkState>,
        guesses: &[WalkState],
        n: u64,
        call: &NfsCall,
        brought: usize,
    ) -> Result<(), Stop<Why>>
        requires history { call_of_history self.now.history.now.known n ≡ Some call.now }
        requires brought { bytes_brought call.now ≡ Some brought }
        ensures { IfOk result (λ _. AddsFrom guesses.now states.old.items states.new.items
            × AllByRecursion (λ guess. HasTaken self.now.history.now.known self.now.marks.items states.new.items guess n call.now) guesses.now) }
    {
        for guess in guesses {
            self.take_write(states, guess, n, call, brought)?;
        }
        Ok(())
    }

    /// Puts the states there to which a WRITE may lead that is taken without a reply, and brought so many bytes.
    pub(crate) fn take_any_write(
        &self,
        states: &mut Vec<WalkState>,
        state: &WalkState,
        n: u64,
        call: &NfsCall,
        brought: usize,
    ) -> Result<(), Stop<Why>>
        requires history { call_of_history self.now.history.now.known n ≡ Some call.now }
        requires brought { bytes_brought call.now ≡ Some brought }
        ensures { IfOk result (λ _. Adds state.now.origin states.old.items states.new.items × HasTaken self.now.history.now.known self.now.marks.items states.new.items state.now n call.now) }
    {
        if knows_handles(state.stands.binds(), call) {
            return self.take_write(states, state, n, call, brought);
        }
        let guesses = self.all_guesses(state, n, call)?;
        self.take_in_guesses(states, guesses.as_slice(), n, call, brought)
    }
}
