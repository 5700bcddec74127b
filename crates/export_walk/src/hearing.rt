//! The result that a reply gives.

ghost use Rattle.std.specs.Prelude.{IfOk};
ghost use Rattle.nfs3_types.specs.Procedures.{procedure_called};
ghost use Rattle.export_walk.specs.Noted.{IsAnswer};
ghost use Rattle.export_walk.specs.Hearing.{IsHeard, IsResultHeard};

use crate::end::WalkEnd;
use nfs3_msgs::{Kind, MessageFault, NfsReply, read_result};
use nfs3_types::NfsCall;
use rpc_client::Refusal;
use rpc_connection::ConnectionFault;
use rpc_reader::{ReplyBody, RpcFault, read_reply};
use std::alloc::{AllocError, Global};

/// What a message is.
#[derive(Drop)]
pub(crate) enum Heard {
    /// A reply with a result of the procedure.
    Answer(NfsReply),
    /// A reply whose result isn't in the grammar of RFC 1813: the first item at fault, by its offset.
    BadResult(usize, Kind),
    /// A reply by which RPC refused the call.
    Refused(Refusal),
    /// No reply of RPC.
    NotRpc(RpcFault),
}

/// What the results of a call are.
fn hear_result(alloc: Global, call: &NfsCall, results: &[u8]) -> Result<Heard, AllocError>
    ensures { IfOk result (IsResultHeard (procedure_called call.now) results.now) }
{
    match read_result(alloc, call.procedure().number(), results) {
        Ok(reply) => Ok(Heard::Answer(reply)),
        Err(MessageFault::BadMessage { at, kind }) => Ok(Heard::BadResult(at, kind)),
        Err(MessageFault::NoMemory) => Err(AllocError),
    }
}

/// What a message is that came to a call.
fn hear(alloc: Global, call: &NfsCall, message: &[u8]) -> Result<Heard, AllocError>
    ensures { IfOk result (IsHeard (procedure_called call.now) message.now) }
{
    let head = match read_reply(message) {
        Ok(head) => head,
        Err(fault) => return Ok(Heard::NotRpc(fault)),
    };
    if let Some(refusal) = Refusal::in_body(&head.body) {
        return Ok(Heard::Refused(refusal));
    }
    match head.body {
        ReplyBody::Success(results) => hear_result(alloc, call, results),
        _ => unreachable!(),
    }
}

/// The result that a message has which came to a call.
pub(crate) fn result_in(alloc: Global, call: &NfsCall, message: &[u8]) -> Result<NfsReply, WalkEnd>
    ensures { IfOk result (IsAnswer (procedure_called call.now) message.now) }
{
    match hear(alloc, call, message)? {
        Heard::Answer(reply) => Ok(reply),
        Heard::BadResult(at, kind) => Err(WalkEnd::BadResult(at, kind)),
        Heard::Refused(refusal) => Err(WalkEnd::Refused(refusal)),
        Heard::NotRpc(fault) => Err(WalkEnd::Connection(ConnectionFault::NotRpc(fault))),
    }
}
