//! What a fault tells, and what to do next.

use crate::fault::MountFault;
use crate::status::MountStatus;
use rpc_client::Refusal;
use rpc_connection::ConnectionFault;
use std::fmt;

/// What is said of a refusal by RPC.
fn write_refusal<W: fmt::Write>(refusal: Refusal, f: &mut fmt::Formatter<W>) -> fmt::Result {
    match refusal {
        Refusal::ProgramUnavailable => f.write_str(
            "the program at the port of MOUNT isn't MOUNT: say the port of the mount daemon (rpcinfo -p tells it) by --mount",
        ),
        Refusal::ProgramMismatch(low, high) => write!(
            f,
            "the server has MOUNT in versions {low} to {high}, and not in version 3: have it serve NFS version 3"
        ),
        _ if refusal.is_too_weak() => f.write_str(
            "AUTH_TOOWEAK: MOUNT wants a port below 1024: allow ports above 1023 (`insecure` in /etc/exports, `PrivilegedPort = false` in nfs-ganesha)",
        ),
        _ => write!(f, "RPC refused MNT, {refusal}: look at the server's log"),
    }
}

/// What is said of a status.
fn write_status<W: fmt::Write>(status: MountStatus, f: &mut fmt::Formatter<W>) -> fmt::Result {
    match status {
        MountStatus::NotOwner => write_denied("MNT3ERR_PERM", f),
        MountStatus::Access => write_denied("MNT3ERR_ACCES", f),
        MountStatus::NoEntry => {
            f.write_str("MNT3ERR_NOENT: no such export: showmount -e lists them")
        }
        MountStatus::InputOutput => f.write_str(
            "MNT3ERR_IO: the server had a hard error: look at its disk and its log",
        ),
        MountStatus::NotDirectory => {
            f.write_str("MNT3ERR_NOTDIR: the path is no directory: export one")
        }
        MountStatus::Invalid => f.write_str(
            "MNT3ERR_INVAL: the server takes no such path: showmount -e lists its exports",
        ),
        MountStatus::NameTooLong => {
            f.write_str(
                "MNT3ERR_NAMETOOLONG: the path is too long for the server: export a shorter one",
            )
        }
        MountStatus::NotSupported => f.write_str(
            "MNT3ERR_NOTSUPP: the server has no MNT of version 3: have it serve NFS version 3",
        ),
        MountStatus::ServerFault => {
            f.write_str("MNT3ERR_SERVERFAULT: the mount daemon failed: look at its log")
        }
        MountStatus::Other(number) => write!(
            f,
            "MNT failed with status {number}, which RFC 1813 doesn't have: look at the server's log"
        ),
    }
}

/// What is said where the server doesn't let this machine mount.
fn write_denied<W: fmt::Write>(name: &str, f: &mut fmt::Formatter<W>) -> fmt::Result {
    write!(
        f,
        "{name}: the server doesn't let this machine mount it: export it to this address, and allow ports above 1023 (`insecure` in /etc/exports, `PrivilegedPort = false` in nfs-ganesha)"
    )
}

impl fmt::Display for MountFault {
    fn fmt<W: fmt::Write>(&self, f: &mut fmt::Formatter<W>) -> fmt::Result {
        match self {
            MountFault::Connection(ConnectionFault::CannotConnect) => f.write_str(
                "the mount daemon takes no connection: look whether it runs, and say its port (rpcinfo -p tells it) by --mount",
            ),
            MountFault::Connection(fault) => write!(f, "MOUNT: {fault}"),
            MountFault::Refused(refusal) => write_refusal(*refusal, f),
            MountFault::Status(status) => write_status(*status, f),
            MountFault::BadResult => f.write_str(
                "the result of MNT isn't in the grammar of RFC 1813: the server's reply is wrong",
            ),
            MountFault::NoAuthSys => f.write_str(
                "the export takes neither AUTH_SYS nor AUTH_NONE: allow AUTH_SYS for it (`sec=sys` in /etc/exports, `SecType = sys` in nfs-ganesha)",
            ),
            MountFault::PathTooLong => {
                f.write_str(
                    "the path has over 1024 bytes, which no MNT takes: export a shorter one",
                )
            }
            MountFault::NoMemory => f.write_str("out of memory"),
        }
    }
}

impl fmt::Debug for MountFault {
    fn fmt<W: fmt::Write>(&self, f: &mut fmt::Formatter<W>) -> fmt::Result {
        write!(f, "{self}")
    }
}
