//! MNT and UMNT, asked over a connection.

ghost use Rattle.std.specs.Prelude.{IfOk};
ghost use Rattle.mount_client.specs.Hearing.{IsRootTold};

use crate::asking::{MNT, UMNT, XID, message_of};
use crate::fault::MountFault;
use crate::hearing::root_in;
use nfs3_types::FileHandle;
use rpc_client::Credential;
use rpc_connection::{Connection, ConnectionRuntime};
use std::net::SocketAddr;
use std::time::Duration;

/// The handle of an export's root, as the mount daemon at an address tells it. The connection may take so long, and the reply too.
pub fn mount<R: ConnectionRuntime>(
    rt: &R,
    server: &SocketAddr,
    path: &[u8],
    who: Credential,
    patience: Duration,
) -> Result<FileHandle, MountFault>
    // It is the one that a reply of success to the call has.
    ensures { IfOk result (λ root. IsRootTold root) }
{
    let message = message_of(rt.alloc(), who, MNT, path)?;
    let mut connection = Connection::connect(rt, server, patience)?;
    let reply = connection.ask(rt, XID, message.as_slice())?;
    root_in(rt.alloc(), reply.as_slice())
}

/// Tells the mount daemon at an address that the export isn't used any more. Whether it hears is of no concern.
pub fn unmount<R: ConnectionRuntime>(
    rt: &R,
    server: &SocketAddr,
    path: &[u8],
    who: Credential,
    patience: Duration,
) {
    let Ok(message) = message_of(rt.alloc(), who, UMNT, path) else {
        return;
    };
    let Ok(mut connection) = Connection::connect(rt, server, patience) else {
        return;
    };
    drop(connection.ask(rt, XID, message.as_slice()));
}
