//! Why a call got no reply.

ghost use Rattle.std.specs.Prelude.{◌≡◌};
ghost use Rattle.rpc_connection.specs.declared.fault.ConnectionFault.TheVariants.{NoMemory};

use rpc_reader::RpcFault;
use std::alloc::{AllocError, AllocFailed};
use std::fmt;
use thiserror::Error;

/// Why a call got no reply. Behind it the connection is useless.
#[derive(Clone, Copy, Debug, PartialEq, Eq, Error)]
pub enum ConnectionFault {
    /// The server takes no connection in time.
    CannotConnect,
    /// The server ended the connection.
    Ended,
    /// No reply came in time.
    NoReply,
    /// A record is over 2,097,152 bytes.
    RecordTooLong,
    /// What came is no RPC reply.
    NotRpc(RpcFault),
    /// The reply is one to the call with this transaction number, which wasn't asked.
    OtherNumber(u32),
    /// Memory ran out.
    NoMemory,
}

impl fmt::Display for ConnectionFault {
    ghost use Rattle.std.specs.Prelude.{Some};
    ghost use Rattle.rpc_connection.specs.Words.{connection_fault_words};

    ghost output = { λ fault. Some (connection_fault_words fault) };

    fn fmt<W: fmt::Write>(&self, f: &mut fmt::Formatter<W>) -> fmt::Result {
        match self {
            ConnectionFault::CannotConnect => f.write_str(
                "the server takes no connection: look whether it runs, and whether the address and the port are right",
            ),
            ConnectionFault::Ended => {
                f.write_str("the server ended the connection: look at its log")
            }
            ConnectionFault::NoReply => f.write_str(
                "no reply came in time: look at the server's log, or wait longer for a reply",
            ),
            ConnectionFault::RecordTooLong => f.write_str(
                "a record is over 2097152 bytes: look whether the program at this port speaks RPC",
            ),
            ConnectionFault::NotRpc(fault) => write!(
                f,
                "what came is no RPC reply, {fault}: look whether the program at this port speaks RPC"
            ),
            ConnectionFault::OtherNumber(xid) => write!(
                f,
                "the reply has the transaction number {xid}, which wasn't asked: the server's reply is wrong"
            ),
            ConnectionFault::NoMemory => f.write_str("out of memory"),
        }
    }
}

impl From<AllocError> for ConnectionFault {
    ghost from_gives = { λ _ fault. fault ≡ NoMemory };

    fn from(_error: AllocError) -> ConnectionFault {
        ConnectionFault::NoMemory
    }
}

impl<T: Drop> From<AllocFailed<T>> for ConnectionFault {
    ghost from_gives = { λ _ fault. fault ≡ NoMemory };

    fn from(_error: AllocFailed<T>) -> ConnectionFault {
        ConnectionFault::NoMemory
    }
}
