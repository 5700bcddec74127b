//! Answers as messages.

ghost use Rattle.std.specs.Prelude.{◌≡◌, IfOk};
ghost use Rattle.rpc_reader.specs.Texts.{reply_text};
ghost use Rattle.rpc_reader.specs.Views.{body_value};
ghost use Rattle.server_requests.specs.MountPlainly.{body_of, results_text};
ghost use Rattle.rpc_reader.specs.Values.Body.{success};

use crate::mounting::results::Results;
use rpc_reader::{ReplyBody, put_reply};
use std::alloc::{AllocError, Global};

/// The version of the MOUNT service that is served.
pub(crate) const MOUNT_VERSION: u32 = 3;

/// What is answered to a call.
#[derive(Clone, Copy)]
pub(crate) enum Answer {
    /// Of the MOUNT service.
    OtherVersion,
    NoProcedure,
    BadArguments,
    Done(Results),
}

/// A reply as a message.
fn short_message(alloc: Global, xid: u32, body: &ReplyBody<'_>) -> Result<Vec<u8>, AllocError>
    ensures { IfOk result (λ message. message.items ≡ reply_text xid (body_value body.now)) }
{
    let mut message = Vec::new(alloc);
    put_reply(&mut message, xid, body)?;
    Ok(message)
}

/// A reply with results, as a message.
fn done_message(alloc: Global, xid: u32, done: Results) -> Result<Vec<u8>, AllocError>
    ensures { IfOk result (λ message. message.items ≡ reply_text xid (success (results_text done))) }
{
    let mut results = Vec::new(alloc);
    done.put(&mut results)?;
    short_message(alloc, xid, &ReplyBody::Success(results.as_slice()))
}

impl Answer {
    /// The answer as a message, to the call with this transaction number.
    pub(crate) fn message(self, alloc: Global, xid: u32) -> Result<Vec<u8>, AllocError>
        ensures { IfOk result (λ message. message.items ≡ reply_text xid (body_of self)) }
    {
        match self {
            Answer::OtherVersion => {
                let only = ReplyBody::ProgMismatch(MOUNT_VERSION, MOUNT_VERSION);
                short_message(alloc, xid, &only)
            }
            Answer::NoProcedure => short_message(alloc, xid, &ReplyBody::ProcUnavail),
            Answer::BadArguments => short_message(alloc, xid, &ReplyBody::GarbageArgs),
            Answer::Done(results) => done_message(alloc, xid, results),
        }
    }
}
