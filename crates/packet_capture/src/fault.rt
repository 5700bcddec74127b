//! Why bytes are no capture file.

use std::alloc::{AllocError, AllocFailed};
use std::fmt;
use thiserror::Error;

/// Why bytes are no capture file that is read here: the first fault, with the place in the file where the item at fault begins.
#[derive(Clone, Copy, Debug, Error)]
pub enum CaptureFault {
    /// The file begins neither as a pcap nor as a pcapng file.
    BadMagic,
    /// A version of the format that isn't known.
    BadVersion(u64),
    /// Bytes of an item are missing.
    Truncated(u64),
    /// The length of a block, or of a packet in it, isn't one that it can have.
    BadLength(u64),
    /// A packet of an interface that no block before it describes.
    UnknownInterface(u64),
    /// A link type that isn't known: its place and its number.
    UnknownLink(u64, u32),
    /// Memory ran out.
    NoMemory,
}

impl fmt::Display for CaptureFault {
    fn fmt<W: fmt::Write>(&self, f: &mut fmt::Formatter<W>) -> fmt::Result {
        match self {
            CaptureFault::BadMagic => f.write_str("not a capture file"),
            CaptureFault::BadVersion(at) => write!(f, "unknown version at byte {at}"),
            CaptureFault::Truncated(at) => write!(f, "cut off in the item at byte {at}"),
            CaptureFault::BadLength(at) => write!(f, "bad length at byte {at}"),
            CaptureFault::UnknownInterface(at) => write!(f, "unknown interface at byte {at}"),
            CaptureFault::UnknownLink(at, number) => {
                write!(f, "unknown link type {number} at byte {at}")
            }
            CaptureFault::NoMemory => f.write_str("out of memory"),
        }
    }
}

impl From<AllocError> for CaptureFault {
    fn from(_error: AllocError) -> CaptureFault {
        CaptureFault::NoMemory
    }
}

impl<T: Drop> From<AllocFailed<T>> for CaptureFault {
    fn from(_error: AllocFailed<T>) -> CaptureFault {
        CaptureFault::NoMemory
    }
}
