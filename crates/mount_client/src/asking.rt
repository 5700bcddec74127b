//! The messages of MNT and UMNT.

ghost use Rattle.std.specs.Prelude.{◌≡◌, ◌++◌, IfOk};
ghost use Rattle.xdr_records.specs.Texts.{opaque_text};
ghost use Rattle.rpc_client.specs.Asking.{head_text};
ghost use Rattle.mount_client.specs.Mounting.{IsAsked};

use crate::fault::MountFault;
use rpc_client::{Asked, Credential, put_call_head};
use std::alloc::Global;
use xdr_records::put_opaque;

/// The program number of the MOUNT service (RFC 1813, section 5.1.2).
const PROGRAM: u32 = 100_005;

/// The version of the MOUNT service that goes with NFS version 3.
const VERSION: u32 = 3;

/// The procedure that tells the root of an export (RFC 1813, section 5.2.1).
pub(crate) const MNT: u32 = 1;

/// The procedure by which a client takes its leave (RFC 1813, section 5.2.3).
pub(crate) const UMNT: u32 = 3;

/// In bytes: `MNTPATHLEN` (RFC 1813, section 5.1.4).
const PATH_LIMIT: usize = 1024;

/// The transaction number of the one call on a connection.
pub(crate) const XID: u32 = 1;

/// The message of a call of MOUNT with this path, without record marking.
pub(crate) fn message_of(
    alloc: Global,
    who: Credential,
    procedure: u32,
    path: &[u8],
) -> Result<Vec<u8>, MountFault>
    ensures asked { IsAsked procedure path.now result }
    // It is asked as this user.
    ensures whom { IfOk result (λ message. message.items
        ≡ head_text 1 who (record { program = 100005; version = 3; procedure = procedure }) ++ opaque_text path.now) }
{
    if path.len() > PATH_LIMIT {
        return Err(MountFault::PathTooLong);
    }
    let asked = Asked {
        program: PROGRAM,
        version: VERSION,
        procedure,
    };
    let mut message = Vec::new(alloc);
    put_call_head(&mut message, XID, who, asked)?;
    put_opaque(&mut message, path)?;
    Ok(message)
}
