//! What a device for a journal does.

ghost use Rattle.std.specs.Prelude.{◌≡◌, ◌≤◌, IsErrOf, length};
ghost use Rattle.journal.specs.Device.{Device, appended, settled, recovered, Leaves};

use std::alloc::{AllocError, AllocFailed};
use std::fmt;
use thiserror::Error;

/// Why a call of a device was refused. Its records and its mark are then as they were.
#[derive(Clone, Copy, Debug, PartialEq, Eq, Drop, Error)]
pub enum DevFault {
    /// The device failed.
    Failed,
    /// A growth was refused.
    NoMemory,
}

impl fmt::Display for DevFault {
    ghost use Rattle.std.specs.Prelude.{Some};
    ghost use Rattle.journal.specs.DeviceFaultText.{fault_words};

    ghost output = { λ fault. Some (fault_words fault) };

    fn fmt<W: fmt::Write>(&self, f: &mut fmt::Formatter<W>) -> fmt::Result {
        match self {
            DevFault::Failed => f.write_str("the device failed"),
            DevFault::NoMemory => f.write_str("out of memory"),
        }
    }
}

impl From<AllocError> for DevFault {
    ghost use Rattle.std.specs.Prelude.{◌≡◌};
    ghost use Rattle.journal.specs.declared.device.DevFault.TheVariants.{NoMemory};

    ghost from_gives = { λ _ fault. fault ≡ NoMemory };

    fn from(_error: AllocError) -> DevFault {
        DevFault::NoMemory
    }
}

impl<T: Drop> From<AllocFailed<T>> for DevFault {
    ghost use Rattle.std.specs.Prelude.{◌≡◌};
    ghost use Rattle.journal.specs.declared.device.DevFault.TheVariants.{NoMemory};

    ghost from_gives = { λ _ fault. fault ≡ NoMemory };

    fn from(_error: AllocFailed<T>) -> DevFault {
        DevFault::NoMemory
    }
}

/// Keeps the records of a journal over crashes: those ahead of the mark outlive every crash, the first ones behind it
/// may.
pub trait JournalDevice: Drop {
    // Its records, its mark and how often it failed.
    ghost device: { Self → Device };

    /// Adds a record behind the others. It may be lost at a crash until a barrier has come.
    fn append(&mut self, bytes: &[u8]) -> Result<(), DevFault>
        ensures { Leaves (device self.old) (appended (device self.old) bytes.now) result (device self.new) };

    /// Makes all records safe: none of them is lost at a crash from then on.
    fn barrier(&mut self) -> Result<(), DevFault>
        ensures leaves { Leaves (device self.old) (settled (device self.old)) result (device self.new) }
        ensures memory { IsErrOf result DevFault.NoMemory → ⊥ };

    /// Goes on after a crash that the first `keep` records outlived.
    fn recover(&mut self, keep: u64) -> Result<(), DevFault>
        requires safe { (device self.old).mark ≤ keep }
        requires there { keep ≤ length (device self.old).records }
        ensures leaves { Leaves (device self.old) (recovered (device self.old) keep) result (device self.new) }
        ensures memory { IsErrOf result DevFault.NoMemory → ⊥ };

    /// How many records there are.
    fn len(&self) -> u64
        ensures { result ≡ length (device self.now).records };

    /// How many of them are safe.
    fn mark(&self) -> u64
        ensures mark { result ≡ (device self.now).mark }
        ensures within { result ≤ length (device self.now).records };

    /// How often the device has failed.
    fn faults(&self) -> u64
        ensures { result ≡ (device self.now).faults };
}
