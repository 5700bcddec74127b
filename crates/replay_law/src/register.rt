//! A register of one number.
ghost use Rattle.std.specs.Prelude.{◌≡◌, ◌<◌, ◌^◌};
ghost use Rattle.replay_law.specs.Register.{after, register_text, same_register};

use crate::replay::{Replayable, StepFault};
use std::alloc::{AllocError, Global};

/// What is asked of the register.
#[derive(Clone, Copy, Drop)]
pub enum Call {
    /// Asks for the number.
    Read,
    /// Sets the number to this one.
    Write(u64),
}

/// What it answered.
#[derive(Clone, Copy, Drop)]
pub enum Outcome {
    /// The number, in answer to a read.
    Value(u64),
    /// The number is set, in answer to a write.
    Done,
}

/// One number, at first 0.
#[derive(Clone, Copy)]
pub struct Register {
    /// The number.
    pub value: u64,
}

impl Replayable for Register {
    type Setting = ();

    type Call = Call;

    type Outcome = Outcome;

    type Undo = u64;

    ghost is_state = { λ r. r.value < 2 ^ 64 };

    ghost start = { λ _. record { value = 0 } };

    ghost next = { λ _ r _ call outcome. after r call outcome };

    ghost undoes = { λ undo _ before. undo ≡ before.value };

    ghost printed = { λ r. register_text r };

    ghost print_tells = { same_register };

    fn opening(_alloc: Global, _setting: &()) -> Result<Self, AllocError> {
        Ok(Register { value: 0 })
    }

    fn step(
        &mut self,
        _setting: &(),
        _number: u64,
        call: &Call,
        outcome: &Outcome,
    ) -> Result<u64, StepFault> {
        let before = self.value;
        match (*call, *outcome) {
            (Call::Read, Outcome::Value(answered)) if answered == before => Ok(before),
            (Call::Write(value), Outcome::Done) => {
                self.value = value;
                Ok(before)
            }
            _ => Err(StepFault::NotAllowed),
        }
    }

    fn undo(self, undo: u64) -> Result<Self, AllocError> {
        Ok(Register { value: undo })
    }

    fn print_state(&self, out: &mut Vec<u8>) -> Result<(), AllocError> {
        out.extend_from_slice(&self.value.to_be_bytes())
    }
}
