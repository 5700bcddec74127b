//! Why a call isn't placed.

use std::alloc::AllocError;
use std::fmt;
use thiserror::Error;

/// Why a call isn't placed in a state, which is then as it was.
#[derive(Clone, Copy, Debug, PartialEq, Eq, Drop, Error)]
pub enum PlaceFault {
    /// No binding of all handles that agrees with the state's lets the call come out so there.
    NotLegal,
    /// It isn't decided: the call names a handle that isn't bound, since no call gave it before. Such a binding has one of those
    /// name an object that stands.
    HandleNotGiven,
    /// A growth was refused.
    NoMemory,
}

impl fmt::Display for PlaceFault {
    ghost use Rattle.std.specs.Prelude.{Some};
    ghost use Rattle.decision_steps.specs.FaultText.{place_fault_words};

    ghost output = { λ fault. Some (place_fault_words fault) };

    fn fmt<W: fmt::Write>(&self, f: &mut fmt::Formatter<W>) -> fmt::Result {
        match self {
            PlaceFault::NotLegal => f.write_str("the call can't come out so there"),
            PlaceFault::HandleNotGiven => {
                f.write_str("the call names a handle that no reply gave before it")
            }
            PlaceFault::NoMemory => f.write_str("out of memory"),
        }
    }
}

impl From<AllocError> for PlaceFault {
    ghost use Rattle.std.specs.Prelude.{◌≡◌};
    ghost use Rattle.decision_steps.specs.declared.fault.PlaceFault.TheVariants.{NoMemory};

    ghost from_gives = { λ _ fault. fault ≡ NoMemory };

    fn from(_error: AllocError) -> PlaceFault {
        PlaceFault::NoMemory
    }
}
