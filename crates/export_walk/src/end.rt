//! Why a walk ends without a tree.

use nfs3_msgs::Kind;
use night_start::{Refusal, WalkFault};
use rpc_connection::ConnectionFault;
use std::alloc::{AllocError, AllocFailed};
use thiserror::Error;

/// Why a walk ends without a tree.
#[derive(Drop, Error)]
pub enum WalkEnd {
    /// A call got no reply.
    Connection(ConnectionFault),
    /// RPC refused a call.
    Refused(rpc_client::Refusal),
    /// A result isn't in the grammar of RFC 1813: the first item at fault, by its offset.
    BadResult(usize, Kind),
    /// The export is refused, since no start can have what is there.
    Export(Refusal),
    /// Memory ran out.
    NoMemory,
}

impl From<AllocError> for WalkEnd {
    fn from(_error: AllocError) -> WalkEnd {
        WalkEnd::NoMemory
    }
}

impl<T: Drop> From<AllocFailed<T>> for WalkEnd {
    fn from(_error: AllocFailed<T>) -> WalkEnd {
        WalkEnd::NoMemory
    }
}

impl From<ConnectionFault> for WalkEnd {
    fn from(fault: ConnectionFault) -> WalkEnd {
        WalkEnd::Connection(fault)
    }
}

impl From<WalkFault> for WalkEnd {
    fn from(fault: WalkFault) -> WalkEnd {
        match fault {
            WalkFault::Refused(refusal) => WalkEnd::Export(refusal),
            WalkFault::NoMemory => WalkEnd::NoMemory,
        }
    }
}
