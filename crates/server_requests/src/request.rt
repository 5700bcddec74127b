//! What a message is to a journal server.

ghost use Rattle.std.specs.Prelude.{IfOk};
ghost use Rattle.journal.specs.Exactly.{ExactlySeen};
ghost use Rattle.rpc_reader.specs.Views.{call_value};
ghost use Rattle.server_requests.specs.Handling.{IsCallMessage, IsRequest};
ghost use Rattle.server_requests.specs.Plainly.{AreHandled, IsHandled, IsHandledAs, IsRequestOf};

use crate::plain::{Plain, answer_ahead, answer_outside};
use nfs3_msgs::{MessageFault, read_args};
use nfs3_types::NfsCall;
use rpc_reader::{CallHead, read_call};
use std::alloc::{AllocError, Global};
use xdr_records::RECORD_LIMIT;

/// What a message is to a journal server.
#[derive(Drop)]
pub enum Request {
    /// No call, or over the limit of a record: nothing can be answered.
    Unreadable,
    /// A call that stands in no history, with the reply to it as a message.
    Answered(Vec<u8>),
    /// A call that is recorded.
    Recorded(NfsCall),
}

/// What becomes of a procedure's arguments.
pub(crate) enum Handled {
    Answer(Plain),
    Record(NfsCall),
}

/// What becomes of a call of a judged procedure.
fn handle_call(call: NfsCall) -> Handled
    ensures { IsHandled call result }
{
    match answer_outside(&call) {
        None => Handled::Record(call),
        Some(answer) => {
            drop(call);
            Handled::Answer(answer)
        }
    }
}

/// What becomes of a procedure's arguments.
fn handle_arguments(alloc: Global, procedure: u32, bytes: &[u8]) -> Result<Handled, AllocError>
    ensures { IfOk result (AreHandled procedure bytes.now) }
{
    match read_args(alloc, procedure, bytes) {
        Ok(call) => Ok(handle_call(call)),
        Err(MessageFault::BadMessage { .. }) => Ok(Handled::Answer(Plain::BadArguments)),
        Err(MessageFault::NoMemory) => Err(AllocError),
    }
}

/// What becomes of the call with this head.
fn handle(alloc: Global, head: &CallHead<'_>) -> Result<Handled, AllocError>
    ensures { IfOk result (IsHandledAs (call_value head.now)) }
{
    match answer_ahead(head) {
        Some(answer) => Ok(Handled::Answer(answer)),
        None => handle_arguments(alloc, head.procedure, head.args),
    }
}

/// The head of the call that a message is, in a record within its limit.
fn head_of(message: &[u8]) -> Option<CallHead<'_>>
    ensures { ExactlySeen call_value (IsCallMessage message.now) result }
{
    if message.len() > RECORD_LIMIT {
        return None;
    }
    match read_call(message) {
        Ok(head) => Some(head),
        Err(_) => None,
    }
}

/// What a call with this head is to a journal server.
fn request_of(alloc: Global, head: &CallHead<'_>) -> Result<Request, AllocError>
    ensures { IfOk result (IsRequestOf (call_value head.now)) }
{
    match handle(alloc, head)? {
        Handled::Answer(answer) => Ok(Request::Answered(answer.message(alloc, head.xid)?)),
        Handled::Record(call) => Ok(Request::Recorded(call)),
    }
}

/// What a message is to a journal server. It takes memory for the call, and for a reply that it answers by itself.
pub fn read_request(alloc: Global, message: &[u8]) -> Result<Request, AllocError>
    ensures { IfOk result (IsRequest message.now) }
{
    match head_of(message) {
        Some(head) => request_of(alloc, &head),
        None => Ok(Request::Unreadable),
    }
}
