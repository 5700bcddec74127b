//! A quick walk, which leaves out what isn't decided. It claims nothing: what is left of it is where to look for a certificate.

ghost use Rattle.std.specs.Prelude.{false, refl};

use decision_core::{Machine, Stop};
use decision_walk::{HistoryMachine, WalkState, Why};
use std::alloc::Global;

/// The machine of a history, in which states of one number are taken for the same, a step that isn't decided leads nowhere, and a long WRITE without a reply
/// may have written all its bytes.
#[derive(Clone, Copy)]
pub(crate) struct LeavingOut<'m, 'h> {
    alloc: Global,
    machine: &'m HistoryMachine<'h>,
}

impl<'m, 'h> LeavingOut<'m, 'h> {
    /// That of this machine.
    pub(crate) fn new(alloc: Global, machine: &'m HistoryMachine<'h>) -> LeavingOut<'m, 'h> {
        LeavingOut { alloc, machine }
    }

    /// The states in which a call is placed, where a handle that it names and that no reply gave names some object that stands.
    fn step_guessed(&self, state: &WalkState, n: u64) -> Result<Vec<WalkState>, Stop<Why>> {
        let mut states = Vec::new(self.alloc);
        let guesses = self.machine.guesses(state, n)?;
        for index in 0..guesses.len() {
            match self.machine.step_calls(&guesses[index], &[n]) {
                Ok(more) => states.extend(more)?,
                Err(Stop::NotCovered(_)) => {}
                Err(stop) => return Err(stop),
            }
        }
        Ok(states)
    }

    /// The states in which a call is placed.
    fn step_one(&self, state: &WalkState, n: u64) -> Result<Vec<WalkState>, Stop<Why>> {
        match self.machine.step_calls(state, &[n]) {
            Err(Stop::NotCovered(Why::LongWrite(_))) => { self.machine.step_whole(state, n) }
            Err(Stop::NotCovered(Why::HandleNotGiven(_))) => { self.step_guessed(state, n) }
            Err(Stop::NotCovered(Why::WayLost)) => Ok(Vec::new(self.alloc)),
            other => other,
        }
    }
}

impl<'m, 'h> Machine for LeavingOut<'m, 'h> {
    type State = WalkState;

    type Reason = Why;

    // Its states are compared by their numbers alone.
    ghost Origin = { Unit {0} };

    ghost origin = { λ _. tt };

    ghost itself = { λ _. tt };

    // It speaks of no plan.
    ghost Plan = { ⊥ };

    ghost Point = { ⊥ };

    ghost first = { λ _ plan. plan };

    ghost placed = { λ _ _ _. false };

    ghost Next = { λ _ _ _ _ _. ⊥ };

    ghost StandsFor = { λ _ _ _ _ _. ⊥ };

    fn opening(&self) -> Result<WalkState, Stop<Why>> {
        self.machine.opening()
    }

    fn is_placed(&self, state: &WalkState, n: u64) -> bool {
        self.machine.is_placed(state, n)
    }

    fn step_each(&self, state: &WalkState, calls: &[u64]) -> Result<Vec<WalkState>, Stop<Why>> {
        let mut states = Vec::new(self.alloc);
        let mattering = self.machine.mattering(state, calls)?;
        for call in &mattering {
            states.extend(self.step_one(state, *call)?)?;
        }
        Ok(states)
    }

    fn settle(&self, state: WalkState, calls: &[u64]) -> Result<WalkState, Stop<Why>> {
        self.machine.settle(state, calls)
    }

    fn forget(&self, state: WalkState, n: u64) -> WalkState {
        self.machine.forget(state, n)
    }

    fn is_worn(&self, state: &WalkState) -> bool {
        self.machine.is_worn(state)
    }

    fn renew(&self, _like: &WalkState, state: WalkState) -> Result<WalkState, Stop<Why>> {
        self.machine.renew_first(state)
    }

    fn renew_first(&self, state: WalkState) -> Result<WalkState, Stop<Why>> {
        self.machine.renew_first(state)
    }

    fn is_same(&self, state: &WalkState, other: &WalkState) -> bool {
        self.machine.hash(state) == self.machine.hash(other)
    }

    fn hash(&self, state: &WalkState) -> u64 {
        self.machine.hash(state)
    }

    ghost told = { λ _ plan. absurd plan };

    ghost fresh = { λ _ _ _. refl };
}
