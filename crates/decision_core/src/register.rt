//! A register, as an example of a machine.

ghost use Rattle.std.specs.Prelude.{◌≡◌, [], IfOk, refl};
ghost use Rattle.decision_core.specs.Layers.{Grows};
ghost use Rattle.decision_core.specs.Register.{RegisterState, register_first, register_next, register_placed, register_told, StandsForItself, HasRegisterStep};

use crate::machine::{Machine, Stop};
use std::alloc::{AllocError, Global};
use std::marker::Model;

/// A register with the calls that are placed.
#[derive(Drop)]
pub struct Register {
    alloc: Global,
    value: u64,
    calls: Vec<u64>,
}

impl Model for Register {
    ghost Value = { RegisterState };

    ghost view = { λ s. record { value = s.value; calls = s.calls.items } };
}

impl Register {
    /// A register with nothing placed.
    pub fn new(alloc: Global) -> Register
        ensures { result ≡ record { value = 0; calls = [] } }
    {
        Register {
            alloc: alloc,
            value: 0,
            calls: Vec::new(alloc),
        }
    }

    /// Whether a call is placed.
    fn has(&self, n: u64) -> bool
        ensures { result ≡ register_placed self.now n }
    {
        self.calls.iter().any(|m| *m == n)
    }

    /// The register behind a call.
    fn moved(&self, value: u64, n: u64) -> Result<Register, AllocError>
        ensures { IfOk result (λ after. after ≡ Rattle.decision_core.specs.Register.moved self.now value n) }
    {
        let mut calls = self.calls.clone()?;
        if calls.push(n).is_err() {
            return Err(AllocError);
        }
        Ok(Register {
            alloc: self.alloc,
            value: value,
            calls: calls,
        })
    }
}

/// Puts the register behind a call there, if it isn't placed and may be.
fn put_step(states: &mut Vec<Register>, register: &Register, n: u64) -> Result<(), Stop<()>>
    ensures { IfOk result (λ _. Grows states.old.items states.new.items × HasRegisterStep states.new.items n register.now) }
{
    if register.has(n) {
        return Ok(());
    }
    let value = if n < 100 {
        n
    } else if n - 100 == register.value {
        register.value
    } else {
        return Ok(());
    };
    let after = register.moved(value, n)?;
    if states.push(after).is_err() {
        return Err(Stop::NoMemory);
    }
    Ok(())
}

/// The machine of registers. A call below 100 writes its number, another one reads and answers its number less 100.
#[derive(Drop)]
pub struct RegisterMachine {
    alloc: Global,
}

impl RegisterMachine {
    /// The machine.
    pub fn new(alloc: Global) -> RegisterMachine {
        RegisterMachine { alloc: alloc }
    }
}

impl Machine for RegisterMachine {
    type State = Register;

    type Reason = ();

    ghost Origin = { Unit {0} };

    ghost origin = { λ _. tt };

    ghost itself = { λ _. tt };

    ghost Plan = { Unit {0} };

    ghost Point = { RegisterState };

    ghost first = { λ _ _. register_first };

    ghost placed = { λ _. register_placed };

    ghost Next = { λ _ _. register_next };

    ghost StandsFor = { λ _ _ _. StandsForItself };

    fn opening(&self) -> Result<Register, Stop<()>> {
        Ok(Register::new(self.alloc))
    }

    fn is_placed(&self, state: &Register, n: u64) -> bool {
        state.has(n)
    }

    fn step_each(&self, state: &Register, calls: &[u64]) -> Result<Vec<Register>, Stop<()>> {
        let mut states = Vec::new(self.alloc);
        for call in calls {
            put_step(&mut states, state, *call)?;
        }
        Ok(states)
    }

    fn settle(&self, state: Register, _calls: &[u64]) -> Result<Register, Stop<()>> {
        Ok(state)
    }

    fn forget(&self, state: Register, _n: u64) -> Register {
        state
    }

    fn is_worn(&self, _state: &Register) -> bool {
        false
    }

    fn renew(&self, _like: &Register, state: Register) -> Result<Register, Stop<()>> {
        Ok(state)
    }

    fn renew_first(&self, state: Register) -> Result<Register, Stop<()>> {
        Ok(state)
    }

    fn is_same(&self, state: &Register, other: &Register) -> bool {
        state.value == other.value && state.calls == other.calls
    }

    fn hash(&self, state: &Register) -> u64 {
        state.value
    }

    ghost told = { λ _ _. register_told };

    ghost fresh = { λ _ _ _. refl };
}
