//! Why a capture gives no log.

use packet_capture::CaptureFault;
use std::alloc::{AllocError, AllocFailed};
use std::fmt;
use thiserror::Error;

/// Why a capture gives no log.
#[derive(Clone, Copy, Debug, Error)]
pub enum ImportFault {
    /// The bytes are no capture file.
    BadCapture(CaptureFault),
    /// No root handle was given, and the capture has no reply of MOUNT that gives one.
    NoRoot,
    /// The root handle that was given has more than 64 bytes.
    LongRoot,
    /// It has more connections than lanes have numbers, which are of 32 bits.
    ManyConnections,
    /// Memory ran out.
    NoMemory,
}

impl fmt::Display for ImportFault {
    fn fmt<W: fmt::Write>(&self, f: &mut fmt::Formatter<W>) -> fmt::Result {
        match self {
            ImportFault::BadCapture(fault) => write!(f, "capture: {fault}"),
            ImportFault::NoRoot => {
                f.write_str(
                    "the capture has no reply of MOUNT with a root handle: give one by --root",
                )
            }
            ImportFault::ManyConnections => f.write_str(
                "more connections than a history has lanes",
            ),
            ImportFault::LongRoot => f.write_str("the root handle has over 64 bytes"),
            ImportFault::NoMemory => f.write_str("out of memory"),
        }
    }
}

impl From<AllocError> for ImportFault {
    fn from(_error: AllocError) -> ImportFault {
        ImportFault::NoMemory
    }
}

impl<T: Drop> From<AllocFailed<T>> for ImportFault {
    fn from(_error: AllocFailed<T>) -> ImportFault {
        ImportFault::NoMemory
    }
}

impl From<CaptureFault> for ImportFault {
    fn from(fault: CaptureFault) -> ImportFault {
        match fault {
            CaptureFault::NoMemory => ImportFault::NoMemory,
            fault => ImportFault::BadCapture(fault),
        }
    }
}
