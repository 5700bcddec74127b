//! Why bytes give no record.

use std::alloc::AllocError;
use std::fmt;
use thiserror::Error;

/// Why no record was read.
#[derive(Clone, Copy, Debug, PartialEq, Eq, Drop, Error)]
pub enum RecordFault {
    /// The bytes aren't the record of a change.
    NoRecord,
    /// A growth was refused.
    NoMemory,
}

impl fmt::Display for RecordFault {
    ghost use Rattle.std.specs.Prelude.{Some};
    ghost use Rattle.journal.specs.RecordFaultText.{fault_words};

    ghost output = { λ fault. Some (fault_words fault) };

    fn fmt<W: fmt::Write>(&self, f: &mut fmt::Formatter<W>) -> fmt::Result {
        match self {
            RecordFault::NoRecord => f.write_str("the bytes are no record of a change"),
            RecordFault::NoMemory => f.write_str("out of memory"),
        }
    }
}

impl From<AllocError> for RecordFault {
    ghost use Rattle.std.specs.Prelude.{◌≡◌};
    ghost use Rattle.journal.specs.declared.record_fault.RecordFault.TheVariants.{NoMemory};

    ghost from_gives = { λ _ fault. fault ≡ NoMemory };

    fn from(_error: AllocError) -> RecordFault {
        RecordFault::NoMemory
    }
}
