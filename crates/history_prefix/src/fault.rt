//! Why a file gives no prefix.

use nfs_history::{HistoryFault, WriteFault};
use std::alloc::{AllocError, AllocFailed};
use std::fmt;
use thiserror::Error;

/// Why a file gives no prefix.
#[derive(Clone, Copy, Debug, Error)]
pub enum PrefixFault {
    /// The bytes are no history file: its first fault.
    BadHistory(HistoryFault),
    /// The events that are kept are those of no history: the first fault. No history is known of which they are so.
    NoHistory(HistoryFault),
    /// The file of the events that are kept would pass a limit.
    TooLarge,
    /// Memory ran out.
    NoMemory,
}

impl fmt::Display for PrefixFault {
    fn fmt<W: fmt::Write>(&self, f: &mut fmt::Formatter<W>) -> fmt::Result {
        match self {
            PrefixFault::BadHistory(fault) => write!(f, "{fault}"),
            PrefixFault::NoHistory(fault) => write!(f, "prefix: {fault}"),
            PrefixFault::TooLarge => f.write_str("cannot write"),
            PrefixFault::NoMemory => f.write_str("out of memory"),
        }
    }
}

impl From<AllocError> for PrefixFault {
    ghost use Rattle.std.specs.Prelude.{◌≡◌};
    ghost use Rattle.history_prefix.specs.declared.fault.PrefixFault.TheVariants.{NoMemory};

    ghost from_gives = { λ _ told. told ≡ NoMemory };

    fn from(_error: AllocError) -> PrefixFault {
        PrefixFault::NoMemory
    }
}

impl From<HistoryFault> for PrefixFault {
    ghost use Rattle.std.specs.Prelude.{◌≡◌};
    ghost use Rattle.history_prefix.specs.Prefix.{told_of};

    ghost from_gives = { λ fault told. told ≡ told_of fault };

    // That of the bytes.
    fn from(fault: HistoryFault) -> PrefixFault {
        match fault {
            HistoryFault::NoMemory => PrefixFault::NoMemory,
            fault => PrefixFault::BadHistory(fault),
        }
    }
}

impl From<WriteFault> for PrefixFault {
    fn from(fault: WriteFault) -> PrefixFault {
        match fault {
            WriteFault::TooLarge => PrefixFault::TooLarge,
            WriteFault::NoMemory => PrefixFault::NoMemory,
        }
    }
}
