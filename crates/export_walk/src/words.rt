//! What the end of a walk tells, and what to do next.

use crate::end::WalkEnd;
use rpc_client::Refusal;
use rpc_connection::ConnectionFault;
use std::fmt;

/// What is said of a refusal by RPC.
fn write_refusal<W: fmt::Write>(refusal: Refusal, f: &mut fmt::Formatter<W>) -> fmt::Result {
    match refusal {
        Refusal::ProgramUnavailable => {
            f.write_str("the program at this port isn't NFS: say the port of nfsd by --port")
        }
        Refusal::ProgramMismatch(low, high) => write!(
            f,
            "the server doesn't serve NFS version 3, but versions {low} to {high}: have it serve version 3"
        ),
        _ if refusal.is_too_weak() => f.write_str(
            "AUTH_TOOWEAK: the server wants a port below 1024: allow ports above 1023 (`insecure` in /etc/exports, `PrivilegedPort = false` in nfs-ganesha)",
        ),
        _ => write!(
            f,
            "RPC refused a call of the walk, {refusal}: look at the server's log"
        ),
    }
}

impl fmt::Display for WalkEnd {
    fn fmt<W: fmt::Write>(&self, f: &mut fmt::Formatter<W>) -> fmt::Result {
        match self {
            WalkEnd::Connection(ConnectionFault::CannotConnect) => f.write_str(
                "the NFS server takes no connection: look whether it runs, and say its port (rpcinfo -p tells it) by --port",
            ),
            WalkEnd::Connection(fault) => write!(f, "NFS: {fault}"),
            WalkEnd::Refused(refusal) => write_refusal(*refusal, f),
            WalkEnd::BadResult(at, kind) => write!(
                f,
                "a result isn't in the grammar of RFC 1813, at byte {at}: {kind}: the server's reply is wrong"
            ),
            WalkEnd::Export(refusal) => write!(f, "{refusal}"),
            WalkEnd::NoMemory => f.write_str("out of memory"),
        }
    }
}

impl fmt::Debug for WalkEnd {
    fn fmt<W: fmt::Write>(&self, f: &mut fmt::Formatter<W>) -> fmt::Result {
        write!(f, "{self}")
    }
}
