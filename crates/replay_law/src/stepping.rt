//! A state that is stepped, and loses at a crash what came after a cut.
ghost use Rattle.std.specs.Prelude.{◌≡◌, ℕ, List, [], ◌∷◌, ◌++◌, Option, None, OnOk, OnErr, IfOk};
ghost use Rattle.replay_law.specs.Run.{TakenStep, state_after};
ghost use Rattle.replay_law.specs.Standing.{StandsAfter, HasBase, DoesSo};

use crate::replay::{Replayable, StepFault};
use crate::undo::undo_all;
use std::alloc::{AllocError, Global};

/// A state in the midst of an era: the steps of the eras so far that no crash loses, and those past the cut of this one.
#[derive(Drop)]
pub struct Replay<R: Replayable> {
    state: R,
    lost: Vec<R::Undo>,
}

impl<R: Replayable> Replay<R> {
    /// Before any step.
    pub fn begin(alloc: Global, setting: &R::Setting) -> Result<Self, AllocError>
        ensures { IfOk result (λ replay. StandsAfter R.undoes (R.next setting.now) (R.start setting.now) replay [] []) }
    {
        Ok(Replay {
            state: R::opening(alloc, setting)?,
            lost: Vec::new(alloc),
        })
    }

    /// A run that begins at this state, whatever led to it.
    pub fn from_state(alloc: Global, state: R) -> Self
        ensures { (next : R → ℕ → R.Call → R.Outcome → Option R) → StandsAfter R.undoes next state result [] [] }
    {
        Replay {
            state,
            lost: Vec::new(alloc),
        }
    }

    /// The state.
    pub fn state(&self) -> &R
        ensures { result.now ≡ self.now.state }
    {
        &self.state
    }

    /// The state alone, as it stands; no step can be taken back then.
    pub fn into_state(self) -> R
        ensures { result ≡ self.state }
    {
        let Replay { state, lost: _ } = self;
        state
    }

    /// Takes a step ahead of the cut. A run may know the step by another number than the state does, by a rule that does the same.
    pub fn step_kept(
        &mut self,
        setting: &R::Setting,
        number: u64,
        call: &R::Call,
        outcome: &R::Outcome,
    ) -> Result<(), StepFault>
        ensures ok { OnOk result ((next : R → ℕ → R.Call → R.Outcome → Option R) (start : R) (named : ℕ) (kept : List (TakenStep R.Call R.Outcome))
            → DoesSo next (R.next setting.now) named number call.now outcome.now → StandsAfter R.undoes next start self.old kept []
            → StandsAfter R.undoes next start self.new (kept ++ record { number = named; call = call.now; outcome = outcome.now } ∷ []) []) }
        ensures not_allowed { result ≡ Err StepFault.NotAllowed
            → (next : R → ℕ → R.Call → R.Outcome → Option R) (start : R) (named : ℕ) (kept lost : List (TakenStep R.Call R.Outcome))
            → DoesSo next (R.next setting.now) named number call.now outcome.now → StandsAfter R.undoes next start self.old kept lost
            → state_after next start ((kept ++ lost) ++ record { number = named; call = call.now; outcome = outcome.now } ∷ []) ≡ None }
        ensures err { OnErr result (self.new ≡ self.old) }
    {
        self.state.step(setting, number, call, outcome)?;
        Ok(())
    }

    /// Takes a step past the cut, which the next crash loses. Where it is refused, the steps so far stand.
    pub fn step_lost(
        &mut self,
        setting: &R::Setting,
        number: u64,
        call: &R::Call,
        outcome: &R::Outcome,
    ) -> Result<(), StepFault>
        ensures ok { OnOk result ((next : R → ℕ → R.Call → R.Outcome → Option R) (start : R) (named : ℕ) (kept lost : List (TakenStep R.Call R.Outcome))
            → DoesSo next (R.next setting.now) named number call.now outcome.now → StandsAfter R.undoes next start self.old kept lost
            → StandsAfter R.undoes next start self.new kept (lost ++ record { number = named; call = call.now; outcome = outcome.now } ∷ [])) }
        ensures not_allowed { result ≡ Err StepFault.NotAllowed
            → (next : R → ℕ → R.Call → R.Outcome → Option R) (start : R) (named : ℕ) (kept lost : List (TakenStep R.Call R.Outcome))
            → DoesSo next (R.next setting.now) named number call.now outcome.now → StandsAfter R.undoes next start self.old kept lost
            → state_after next start ((kept ++ lost) ++ record { number = named; call = call.now; outcome = outcome.now } ∷ []) ≡ None }
        ensures err { OnErr result ((next : R → ℕ → R.Call → R.Outcome → Option R) (start : R) (kept lost : List (TakenStep R.Call R.Outcome))
            → StandsAfter R.undoes next start self.old kept lost → StandsAfter R.undoes next start self.new kept lost) }
    {
        self.lost.reserve(1)?;
        let undo = self.state.step(setting, number, call, outcome)?;
        self.lost.push(undo).unwrap();
        Ok(())
    }

    /// Takes back the steps past the cut. All is spent where there is no memory.
    pub fn crash(self) -> Result<Self, AllocError>
        requires { HasBase R.undoes self }
        ensures { IfOk result (λ replay. (next : R → ℕ → R.Call → R.Outcome → Option R) (start : R) (kept lost : List (TakenStep R.Call R.Outcome))
            → StandsAfter R.undoes next start self kept lost → StandsAfter R.undoes next start replay kept []) }
    {
        let Replay { state, lost } = self;
        let alloc = *lost.allocator();
        Ok(Replay {
            state: undo_all(state, lost)?,
            lost: Vec::new(alloc),
        })
    }
}
