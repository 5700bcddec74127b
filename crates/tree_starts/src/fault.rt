//! Why objects are no start.

use std::alloc::{AllocError, AllocFailed};
use std::fmt;
use thiserror::Error;

/// Why objects are no start. Objects are numbered from 1.
#[derive(Clone, Copy, Debug, PartialEq, Eq, Drop, Error)]
pub enum StartFault {
    /// The object lies in none of the directories ahead of it, or its name is empty, `.`, `..` or taken there.
    BadStart(u64),
    /// The object's name, text or bytes are over their limit; 1,000,001 where there are more objects than a start can have.
    TooLarge(u64),
    /// Memory ran out.
    NoMemory,
}

impl fmt::Display for StartFault {
    ghost use Rattle.std.specs.Prelude.{Some};
    ghost use Rattle.tree_starts.specs.FaultText.{start_fault_words};

    ghost output = { λ fault. Some (start_fault_words fault) };

    fn fmt<W: fmt::Write>(&self, f: &mut fmt::Formatter<W>) -> fmt::Result {
        match self {
            StartFault::BadStart(object) => write!(f, "BadStart {object}"),
            StartFault::TooLarge(object) => write!(f, "TooLarge {object}"),
            StartFault::NoMemory => f.write_str("out of memory"),
        }
    }
}

impl From<AllocError> for StartFault {
    ghost use Rattle.std.specs.Prelude.{◌≡◌};
    ghost use Rattle.tree_starts.specs.declared.fault.StartFault.TheVariants.{NoMemory};

    ghost from_gives = { λ _ fault. fault ≡ NoMemory };

    fn from(_error: AllocError) -> StartFault {
        StartFault::NoMemory
    }
}

impl<T: Drop> From<AllocFailed<T>> for StartFault {
    ghost use Rattle.std.specs.Prelude.{◌≡◌};
    ghost use Rattle.tree_starts.specs.declared.fault.StartFault.TheVariants.{NoMemory};

    ghost from_gives = { λ _ fault. fault ≡ NoMemory };

    fn from(_error: AllocFailed<T>) -> StartFault {
        StartFault::NoMemory
    }
}
