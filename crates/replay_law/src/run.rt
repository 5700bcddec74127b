//! What is run, and why a run is refused.
ghost use Rattle.std.specs.Prelude.{◌≡◌, ◌≤◌, length, map, vec_len};
ghost use Rattle.replay_law.specs.Steps.{taken_of};

use std::alloc::{AllocError, AllocFailed};
use std::fmt;
use std::marker::Model;
use thiserror::Error;

/// A numbered call with its outcome.
#[derive(Clone, Copy, Drop)]
pub struct Step<C, O> {
    /// The call's number, which a fault names.
    pub number: u64,
    /// What was asked.
    pub call: C,
    /// How it came out.
    pub outcome: O,
}

/// The steps between two crashes, and how many of them are kept at the second. Of the last era it counts for nothing how
/// many. A contract sees it as an `Era`.
#[derive(Drop)]
pub struct EraRun<C, O> {
    steps: Vec<Step<C, O>>,
    kept: usize,
}

impl<C, O> Model for EraRun<C, O> {
    ghost use Rattle.std.specs.Prelude.{map, length, ◌≤◌};
    ghost use Rattle.replay_law.specs.Run.{Era};

    ghost Value = { Era C O };

    ghost use Rattle.replay_law.specs.Steps.{taken_of};

    ghost view = { λ e. record { steps = map taken_of e.steps.items; kept = e.kept } };

    ghost invariant = { λ e. e.kept ≤ length e.steps.items };
}

impl<C, O> EraRun<C, O> {
    /// These steps, of which the first `kept` are kept.
    pub fn new(steps: Vec<Step<C, O>>, kept: usize) -> Self
        requires { kept ≤ vec_len steps }
        ensures { result ≡ record { steps = map taken_of steps.items; kept = kept } }
    {
        EraRun { steps, kept }
    }

    /// The steps.
    pub fn steps(&self) -> &[Step<C, O>]
        ensures value { map taken_of result.now ≡ self.now.steps }
        ensures kept { self.now.kept ≤ length result.now }
    {
        self.steps.as_slice()
    }

    /// How many steps are kept.
    pub fn kept(&self) -> usize
        ensures { result ≡ self.now.kept }
    {
        self.kept
    }
}

/// Why a run was refused.
#[derive(Clone, Copy, Debug, PartialEq, Eq, Drop, Error)]
pub enum RunFault {
    /// The first step without a next state has this number.
    Illegal(u64),
    /// A growth was refused.
    NoMemory,
}

impl fmt::Display for RunFault {
    ghost use Rattle.std.specs.Prelude.{Some};
    ghost use Rattle.replay_law.specs.FaultText.{run_fault_words};

    ghost output = { λ fault. Some (run_fault_words fault) };

    fn fmt<W: fmt::Write>(&self, f: &mut fmt::Formatter<W>) -> fmt::Result {
        match self {
            RunFault::Illegal(number) => write!(f, "step {number} isn't allowed"),
            RunFault::NoMemory => f.write_str("out of memory"),
        }
    }
}

impl From<AllocError> for RunFault {
    ghost use Rattle.std.specs.Prelude.{◌≡◌};
    ghost use Rattle.replay_law.specs.declared.run.RunFault.TheVariants.{NoMemory};

    ghost from_gives = { λ _ fault. fault ≡ NoMemory };

    fn from(_error: AllocError) -> RunFault {
        RunFault::NoMemory
    }
}

impl<T: Drop> From<AllocFailed<T>> for RunFault {
    ghost use Rattle.std.specs.Prelude.{◌≡◌};
    ghost use Rattle.replay_law.specs.declared.run.RunFault.TheVariants.{NoMemory};

    ghost from_gives = { λ _ fault. fault ≡ NoMemory };

    fn from(_error: AllocFailed<T>) -> RunFault {
        RunFault::NoMemory
    }
}
