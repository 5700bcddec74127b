//! Why no root was told.

ghost use Rattle.std.specs.Prelude.{◌≡◌};
ghost use Rattle.mount_client.specs.declared.fault.MountFault.TheVariants.{NoMemory, Connection};

use crate::status::MountStatus;
use rpc_client::Refusal;
use rpc_connection::ConnectionFault;
use std::alloc::AllocError;
use thiserror::Error;

/// Why no root was told.
#[derive(Clone, Copy, PartialEq, Eq, Error)]
pub enum MountFault {
    /// MNT got no reply.
    Connection(ConnectionFault),
    /// RPC refused MNT.
    Refused(Refusal),
    /// The server doesn't mount the path, for this reason.
    Status(MountStatus),
    /// The result isn't in the grammar of RFC 1813.
    BadResult,
    /// The server takes neither AUTH_SYS nor AUTH_NONE for the export.
    NoAuthSys,
    /// The path has over 1,024 bytes (RFC 1813, section 5.1.4, `MNTPATHLEN`), so nothing was asked.
    PathTooLong,
    /// Memory ran out.
    NoMemory,
}

impl From<AllocError> for MountFault {
    ghost from_gives = { λ _ fault. fault ≡ NoMemory };

    fn from(_error: AllocError) -> MountFault {
        MountFault::NoMemory
    }
}

impl From<ConnectionFault> for MountFault {
    ghost from_gives = { λ reason fault. fault ≡ Connection reason };

    fn from(reason: ConnectionFault) -> MountFault {
        MountFault::Connection(reason)
    }
}
