//! Why a log doesn't take an event.

use nfs_history::EventFault;
use std::alloc::{AllocError, AllocFailed};
use std::fmt;
use thiserror::Error;

/// Why a log doesn't take an event: the fault that the event would have in a history, or want of memory.
#[derive(Clone, Copy, Debug, PartialEq, Eq, Error)]
pub enum NoteFault {
    /// An event on a lane that is closed.
    LaneClosed,
    /// The message isn't an RPC call, or reply, as it is noted.
    BadRpc,
    /// A call whose transaction number has an unanswered call on its lane.
    XidInUse,
    /// A reply to no unanswered call of its lane.
    NoSuchCall,
    /// Memory ran out.
    NoMemory,
}

impl fmt::Display for NoteFault {
    ghost use Rattle.std.specs.Prelude.{Some};
    ghost use Rattle.nfs_tap.specs.FaultText.{note_fault_words};

    ghost output = { λ fault. Some (note_fault_words fault) };

    fn fmt<W: fmt::Write>(&self, f: &mut fmt::Formatter<W>) -> fmt::Result {
        match self {
            NoteFault::LaneClosed => f.write_str("LaneClosed"),
            NoteFault::BadRpc => f.write_str("BadRpc"),
            NoteFault::XidInUse => f.write_str("XidInUse"),
            NoteFault::NoSuchCall => f.write_str("NoSuchCall"),
            NoteFault::NoMemory => f.write_str("out of memory"),
        }
    }
}

impl From<EventFault> for NoteFault {
    ghost use Rattle.std.specs.Prelude.{◌≡◌};
    ghost use Rattle.nfs_tap.specs.Noting.{name_of};

    ghost from_gives = { λ fault e. e ≡ name_of fault };

    fn from(fault: EventFault) -> NoteFault {
        match fault {
            EventFault::LaneClosed(_) => NoteFault::LaneClosed,
            EventFault::BadRpc(_) => NoteFault::BadRpc,
            EventFault::XidInUse(_) => NoteFault::XidInUse,
            EventFault::NoSuchCall(_) => NoteFault::NoSuchCall,
        }
    }
}

impl From<AllocError> for NoteFault {
    ghost use Rattle.std.specs.Prelude.{◌≡◌};
    ghost use Rattle.nfs_tap.specs.declared.fault.NoteFault.TheVariants.{NoMemory};

    ghost from_gives = { λ _ e. e ≡ NoMemory };

    fn from(_error: AllocError) -> NoteFault {
        NoteFault::NoMemory
    }
}

impl<T: Drop> From<AllocFailed<T>> for NoteFault {
    ghost use Rattle.std.specs.Prelude.{◌≡◌};
    ghost use Rattle.nfs_tap.specs.declared.fault.NoteFault.TheVariants.{NoMemory};

    ghost from_gives = { λ _ e. e ≡ NoMemory };

    fn from(_error: AllocFailed<T>) -> NoteFault {
        NoteFault::NoMemory
    }
}
