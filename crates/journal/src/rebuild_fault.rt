//! Why records give no tree.

use std::alloc::AllocError;
use std::fmt;
use thiserror::Error;

/// Why no tree was rebuilt. Records are counted from 1.
#[derive(Clone, Copy, Debug, PartialEq, Eq, Drop, Error)]
pub enum RebuildFault {
    /// The first record at fault isn't that of a change.
    NoRecord(u64),
    /// The first record at fault is that of a change which isn't legal behind those ahead of it.
    NotLegal(u64),
    /// A growth was refused.
    NoMemory,
}

impl fmt::Display for RebuildFault {
    ghost use Rattle.std.specs.Prelude.{Some};
    ghost use Rattle.journal.specs.RebuildFaultText.{fault_words};

    ghost output = { λ fault. Some (fault_words fault) };

    fn fmt<W: fmt::Write>(&self, f: &mut fmt::Formatter<W>) -> fmt::Result {
        match self {
            RebuildFault::NoRecord(number) => write!(f, "record {number} isn't that of a change"),
            RebuildFault::NotLegal(number) => {
                write!(f, "the change of record {number} isn't allowed there")
            }
            RebuildFault::NoMemory => f.write_str("out of memory"),
        }
    }
}

impl From<AllocError> for RebuildFault {
    ghost use Rattle.std.specs.Prelude.{◌≡◌};
    ghost use Rattle.journal.specs.declared.rebuild_fault.RebuildFault.TheVariants.{NoMemory};

    ghost from_gives = { λ _ fault. fault ≡ NoMemory };

    fn from(_error: AllocError) -> RebuildFault {
        RebuildFault::NoMemory
    }
}
