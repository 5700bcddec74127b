//! Why what clients were told isn't what was recorded.

use std::alloc::AllocError;
use std::fmt;
use thiserror::Error;

/// The first fault, in the order of the variants.
#[derive(Clone, Copy, Debug, PartialEq, Eq, Drop, Error)]
pub enum CloseFault {
    /// The passes tell of another number of calls than were answered.
    MissingPass,
    /// Two passes have this lane, or one of it tells of other exchanges than were recorded; the least such lane.
    Torn(u32),
    /// Not known, for want of memory.
    NoMemory,
}

impl fmt::Display for CloseFault {
    ghost use Rattle.std.specs.Prelude.{Some};
    ghost use Rattle.server_passes.specs.FaultText.{close_fault_words};

    ghost output = { λ fault. Some (close_fault_words fault) };

    fn fmt<W: fmt::Write>(&self, f: &mut fmt::Formatter<W>) -> fmt::Result {
        match self {
            CloseFault::MissingPass => f.write_str("MissingPass"),
            CloseFault::Torn(lane) => write!(f, "Torn {lane}"),
            CloseFault::NoMemory => f.write_str("out of memory"),
        }
    }
}

impl From<AllocError> for CloseFault {
    ghost use Rattle.std.specs.Prelude.{◌≡◌};
    ghost use Rattle.server_passes.specs.declared.fault.CloseFault.TheVariants.{NoMemory};

    ghost from_gives = { λ _ fault. fault ≡ NoMemory };

    fn from(_error: AllocError) -> CloseFault {
        CloseFault::NoMemory
    }
}
