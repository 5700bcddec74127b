//! Why RPC refused a call.

ghost use Rattle.std.specs.Prelude.{◌≡◌};
ghost use Rattle.rpc_reader.specs.Views.{body_value};
ghost use Rattle.rpc_client.specs.Refusals.{refusal_in, is_too_weak};

use rpc_reader::ReplyBody;
use std::fmt;

/// Why RPC refused a call (RFC 5531, section 9): its program didn't see it.
#[derive(Clone, Copy, PartialEq, Eq)]
pub enum Refusal {
    /// `PROG_UNAVAIL`: the program isn't there.
    ProgramUnavailable,
    /// `PROG_MISMATCH`: the program is there in other versions, from the lowest to the highest.
    ProgramMismatch(u32, u32),
    /// `PROC_UNAVAIL`: the procedure isn't there.
    ProcedureUnavailable,
    /// `GARBAGE_ARGS`: the server couldn't read the arguments.
    GarbageArguments,
    /// `SYSTEM_ERR`: the server ran out of memory, for example.
    SystemError,
    /// `RPC_MISMATCH`: the server speaks other versions of RPC, from the lowest to the highest.
    RpcMismatch(u32, u32),
    /// `AUTH_ERROR`: the server doesn't take the credential, for the reason of this number.
    AuthError(u32),
}

/// `AUTH_TOOWEAK`: the credential is too weak. A server that wants a privileged port may say so.
const AUTH_TOO_WEAK: u32 = 5;

impl Refusal {
    /// Why the call with such a reply was refused; none if it was carried out.
    pub fn in_body(body: &ReplyBody<'_>) -> Option<Refusal>
        ensures { result ≡ refusal_in (body_value body.now) }
    {
        match body {
            ReplyBody::Success(_) => None,
            ReplyBody::ProgUnavail => Some(Refusal::ProgramUnavailable),
            ReplyBody::ProgMismatch(low, high) => Some(Refusal::ProgramMismatch(*low, *high)),
            ReplyBody::ProcUnavail => Some(Refusal::ProcedureUnavailable),
            ReplyBody::GarbageArgs => Some(Refusal::GarbageArguments),
            ReplyBody::SystemErr => Some(Refusal::SystemError),
            ReplyBody::RpcMismatch(low, high) => Some(Refusal::RpcMismatch(*low, *high)),
            ReplyBody::AuthError(reason) => Some(Refusal::AuthError(*reason)),
        }
    }

    /// Whether it is `AUTH_TOOWEAK`.
    pub fn is_too_weak(self) -> bool
        ensures { result ≡ is_too_weak self }
    {
        match self {
            Refusal::AuthError(reason) => reason == AUTH_TOO_WEAK,
            _ => false,
        }
    }
}

impl fmt::Display for Refusal {
    ghost use Rattle.std.specs.Prelude.{Some};
    ghost use Rattle.rpc_client.specs.Words.{refusal_words};

    ghost output = { λ refusal. Some (refusal_words refusal) };

    fn fmt<W: fmt::Write>(&self, f: &mut fmt::Formatter<W>) -> fmt::Result {
        match self {
            Refusal::ProgramUnavailable => f.write_str("PROG_UNAVAIL"),
            Refusal::ProgramMismatch(low, high) => {
                write!(f, "PROG_MISMATCH, versions {low} to {high}")
            }
            Refusal::ProcedureUnavailable => f.write_str("PROC_UNAVAIL"),
            Refusal::GarbageArguments => f.write_str("GARBAGE_ARGS"),
            Refusal::SystemError => f.write_str("SYSTEM_ERR"),
            Refusal::RpcMismatch(low, high) => {
                write!(f, "RPC_MISMATCH, versions {low} to {high}")
            }
            Refusal::AuthError(reason) => write!(f, "AUTH_ERROR, reason {reason}"),
        }
    }
}
