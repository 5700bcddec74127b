//! Why bytes are no history file.

use std::alloc::{AllocError, AllocFailed};
use std::fmt;
use thiserror::Error;

/// Why bytes are no history file: the first fault, where events and starting objects are numbered from 1.
#[derive(Clone, Copy, Debug, PartialEq, Eq, Error)]
pub enum FileFault {
    /// The file doesn't begin as one.
    BadMagic,
    /// A limit is passed: by the file, its number of events or of starting objects, a message, the root handle, or the name or the
    /// bytes of a starting object.
    TooLarge,
    /// Bytes of an item are missing.
    Truncated,
    /// The kind word of an event isn't one.
    BadEvent(u64),
    /// A starting object lies in none of the directories before it, its name is empty, `.`, `..` or taken there, or its kind word
    /// isn't one.
    BadStart(u64),
    /// The profile word isn't one.
    BadProfile,
    /// Bytes stand behind the last event.
    Trailing,
    /// Memory ran out.
    NoMemory,
}

impl fmt::Display for FileFault {
    ghost use Rattle.std.specs.Prelude.{Some};
    ghost use Rattle.history_file.specs.FaultText.{file_fault_words};

    ghost output = { λ fault. Some (file_fault_words fault) };

    fn fmt<W: fmt::Write>(&self, f: &mut fmt::Formatter<W>) -> fmt::Result {
        match self {
            FileFault::BadMagic => f.write_str("BadMagic"),
            FileFault::TooLarge => f.write_str("TooLarge"),
            FileFault::Truncated => f.write_str("Truncated"),
            FileFault::BadEvent(number) => write!(f, "BadEvent {number}"),
            FileFault::BadStart(number) => write!(f, "BadStart {number}"),
            FileFault::BadProfile => f.write_str("BadProfile"),
            FileFault::Trailing => f.write_str("Trailing"),
            FileFault::NoMemory => f.write_str("out of memory"),
        }
    }
}

impl From<AllocError> for FileFault {
    ghost use Rattle.std.specs.Prelude.{◌≡◌};
    ghost use Rattle.history_file.specs.declared.fault.FileFault.TheVariants.{NoMemory};

    ghost from_gives = { λ _ e. e ≡ NoMemory };

    fn from(_error: AllocError) -> FileFault {
        FileFault::NoMemory
    }
}

impl<T: Drop> From<AllocFailed<T>> for FileFault {
    ghost use Rattle.std.specs.Prelude.{◌≡◌};
    ghost use Rattle.history_file.specs.declared.fault.FileFault.TheVariants.{NoMemory};

    ghost from_gives = { λ _ e. e ≡ NoMemory };

    fn from(_error: AllocFailed<T>) -> FileFault {
        FileFault::NoMemory
    }
}
