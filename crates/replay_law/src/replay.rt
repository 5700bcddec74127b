//! The law that every replayed state keeps.
ghost use Rattle.std.specs.Prelude.{◌≡◌, ℕ, Option, Some, None, List, ◌++◌, OnOk, OnErr, IfOk};

use std::alloc::{AllocError, AllocFailed, Global};
use std::fmt;
use thiserror::Error;

/// Why a step was refused. The state is then as it was.
#[derive(Clone, Copy, Debug, PartialEq, Eq, Drop, Error)]
pub enum StepFault {
    /// The state has no next state after this call with this outcome.
    NotAllowed,
    /// A growth was refused.
    NoMemory,
}

impl fmt::Display for StepFault {
    ghost use Rattle.std.specs.Prelude.{Some};
    ghost use Rattle.replay_law.specs.FaultText.{step_fault_words};

    ghost output = { λ fault. Some (step_fault_words fault) };

    fn fmt<W: fmt::Write>(&self, f: &mut fmt::Formatter<W>) -> fmt::Result {
        match self {
            StepFault::NotAllowed => f.write_str("the outcome isn't allowed here"),
            StepFault::NoMemory => f.write_str("out of memory"),
        }
    }
}

impl From<AllocError> for StepFault {
    ghost use Rattle.std.specs.Prelude.{◌≡◌};
    ghost use Rattle.replay_law.specs.declared.replay.StepFault.TheVariants.{NoMemory};

    ghost from_gives = { λ _ fault. fault ≡ NoMemory };

    fn from(_error: AllocError) -> StepFault {
        StepFault::NoMemory
    }
}

impl<T: Drop> From<AllocFailed<T>> for StepFault {
    ghost use Rattle.std.specs.Prelude.{◌≡◌};
    ghost use Rattle.replay_law.specs.declared.replay.StepFault.TheVariants.{NoMemory};

    ghost from_gives = { λ _ fault. fault ≡ NoMemory };

    fn from(_error: AllocFailed<T>) -> StepFault {
        StepFault::NoMemory
    }
}

/// A state that a numbered call with its outcome takes to at most one next state.
pub trait Replayable: Drop {
    /// What stays the same over a whole run.
    type Setting;

    /// What is asked in a step.
    type Call;

    /// How what was asked came out.
    type Outcome;
    /// What takes one step back.
    type Undo: Drop;

    // The states that a value can have.
    ghost is_state: { Self → Type 0 };

    // The state before any step.
    ghost start: { Self.Setting → Self };

    // The state after a call of this number with this outcome, where there is one.
    ghost next: { Self.Setting → Self → ℕ → Self.Call → Self.Outcome → Option Self };

    // An undo value, with the state after the step and the state before it.
    ghost undoes: { Self.Undo → Self → Self → Type 0 };

    // The bytes that tell a state apart.
    ghost printed: { Self → List ℕ };

    /// The state before any step. What grows later keeps the allocator.
    fn opening(alloc: Global, setting: &Self::Setting) -> Result<Self, AllocError>
        ensures { IfOk result (λ state. state ≡ start setting.now) };

    /// Takes the step of call `number` with its outcome.
    fn step(
        &mut self,
        setting: &Self::Setting,
        number: u64,
        call: &Self::Call,
        outcome: &Self::Outcome,
    ) -> Result<Self::Undo, StepFault>
        ensures next { OnOk result (next setting.now self.old number call.now outcome.now ≡ Some self.new) }
        ensures undo { IfOk result (λ undo. undoes undo self.new self.old) }
        ensures not_allowed { result ≡ Err StepFault.NotAllowed
            → next setting.now self.old number call.now outcome.now ≡ None }
        ensures err { OnErr result (self.new ≡ self.old) };

    /// Takes the last step back. The state is spent where there is no memory.
    fn undo(self, undo: Self::Undo) -> Result<Self, AllocError>
        requires { (before : Self) × undoes undo self before }
        ensures { IfOk result (λ state. (before : Self) → undoes undo self before → state ≡ before) };

    /// Appends the state's bytes.
    fn print_state(&self, out: &mut Vec<u8>) -> Result<(), AllocError>
        ensures ok { OnOk result (out.new.items ≡ out.old.items ++ printed self.now) }
        ensures err { OnErr result (out.new.items ≡ out.old.items) }
        ensures state { OnOk result (is_state self.now) };

    // Equal bytes mean equal states.
    ghost print_tells: { (x y : Self) → is_state x → is_state y → printed x ≡ printed y → x ≡ y };
}
