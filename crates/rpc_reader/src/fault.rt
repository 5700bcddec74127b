//! Why a message is no call or no reply.

use std::fmt;
use thiserror::Error;
use xdr_records::XdrFault;

/// What is wrong with the first item of a head that is at fault.
#[derive(Clone, Copy, PartialEq, Eq, Debug, Error)]
pub enum RpcFault {
    /// Bytes of the item are missing.
    Short,
    /// The message is a reply.
    NotCall,
    /// The message is a call.
    NotReply,
    /// The version of the protocol isn't 2.
    BadVersion,
    /// A word is none of its list.
    BadEnum,
    /// A credential or a verifier has more than 400 bytes.
    AuthTooLong,
    /// Bytes stand behind a reply that has no results.
    Trailing,
}

impl fmt::Display for RpcFault {
    ghost use Rattle.std.specs.Prelude.{Some};
    ghost use Rattle.rpc_reader.specs.FaultText.{rpc_fault_words};

    ghost output = { λ fault. Some (rpc_fault_words fault) };

    fn fmt<W: fmt::Write>(&self, f: &mut fmt::Formatter<W>) -> fmt::Result {
        match self {
            RpcFault::Short => f.write_str("bytes are missing"),
            RpcFault::NotCall => f.write_str("the message is no call"),
            RpcFault::NotReply => f.write_str("the message is no reply"),
            RpcFault::BadVersion => f.write_str("the version of the protocol isn't 2"),
            RpcFault::BadEnum => f.write_str("a word is none of its list"),
            RpcFault::AuthTooLong => f.write_str("a credential or a verifier is too long"),
            RpcFault::Trailing => f.write_str("bytes stand behind the reply"),
        }
    }
}
