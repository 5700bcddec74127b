//! The parts of a change's messages.

ghost use Rattle.std.specs.Prelude.{◌≡◌, None, is_none};
ghost use Rattle.rpc_reader.specs.Views.{call_value, reply_value};
ghost use Rattle.nfs3_types.specs.Procedures.{changes_the_tree, failure_in};
ghost use Rattle.nfs_history.specs.Matching.{bytes_of};
ghost use Rattle.nfs_history.specs.Outside.{outside, asked_size};
ghost use Rattle.journal.specs.Exactly.{Exactly, ExactlySeen};
ghost use Rattle.journal.specs.Parts.{asks_change, AsksChange, IsAsked, AreResults, IsSuccess, results_to};

use crate::record_fault::RecordFault;
use nfs3_msgs::{MessageFault, read_args, read_result};
use nfs3_types::{CreateMode, FILE_LIMIT, NFS_PROGRAM, NFS_VERSION, NfsCall, NfsReply, Procedure};
use rpc_reader::{CallHead, ReplyBody, ReplyHead, SEALED_FLAVOR, read_call, read_reply};
use std::alloc::Global;

/// Whether the procedure of this number changes the tree.
fn changes_the_tree(number: u32) -> bool
    ensures { result ≡ changes_the_tree number }
{
    match Procedure::from_number(number) {
        Some(procedure) => procedure.changes_the_tree(),
        None => false,
    }
}

fn asks_change(head: &CallHead<'_>) -> bool
    ensures { result ≡ asks_change (call_value head.now) }
{
    head.program == NFS_PROGRAM
        && head.version == NFS_VERSION
        && head.flavor != SEALED_FLAVOR
        && changes_the_tree(head.procedure)
}

/// The head of a call that would change the tree.
pub(crate) fn head_of(message: &[u8]) -> Option<CallHead<'_>>
    ensures { ExactlySeen call_value (AsksChange message.now) result }
{
    match read_call(message) {
        Ok(head) => { if asks_change(&head) { Some(head) } else { None } }
        Err(_) => None,
    }
}

/// The size that a CREATE asks for.
fn size_asked(mode: &CreateMode) -> u64
    ensures { result ≡ asked_size mode.now }
{
    match mode {
        CreateMode::Unchecked(attributes) | CreateMode::Guarded(attributes) => {
            attributes.size.unwrap_or(0)
        }
        CreateMode::Exclusive(_) => 0,
    }
}

/// Whether a call lies inside the model whatever its reply.
pub fn is_inside(call: &NfsCall) -> bool
    ensures { result ≡ is_none (outside call.now None) }
{
    match call {
        NfsCall::SetAttr(call) => call.attributes.size.unwrap_or(0) <= FILE_LIMIT,
        NfsCall::Write(write) => {
            if write.count as usize != write.bytes.as_slice().len() {
                return false;
            }
            let far = write.offset > FILE_LIMIT
                || write.offset + u64::from(write.count) > FILE_LIMIT;
            !(write.count > 0 && far)
        }
        NfsCall::Create(create) => size_asked(&create.mode) <= FILE_LIMIT,
        _ => true,
    }
}

/// The call, where it lies inside the model.
fn kept_inside(call: NfsCall) -> Result<NfsCall, RecordFault>
    ensures { Exactly (λ kept. (kept ≡ call) × (outside kept None ≡ None)) result }
{
    if is_inside(&call) {
        Ok(call)
    } else {
        Err(RecordFault::NoRecord)
    }
}

/// The call of these arguments.
pub(crate) fn call_of(alloc: Global, procedure: u32, bytes: &[u8]) -> Result<NfsCall, RecordFault>
    ensures { Exactly (IsAsked procedure bytes.now) result }
{
    match read_args(alloc, procedure, bytes) {
        Ok(call) => kept_inside(call),
        Err(MessageFault::BadMessage { .. }) => Err(RecordFault::NoRecord),
        Err(MessageFault::NoMemory) => Err(RecordFault::NoMemory),
    }
}

/// The results in a reply to the call with this transaction number.
fn results_in<'a>(head: &ReplyHead<'a>, xid: u32) -> Option<&'a [u8]>
    ensures { bytes_of result ≡ results_to xid (reply_value head.now) }
{
    if head.xid != xid {
        return None;
    }
    match head.body {
        ReplyBody::Success(results) => Some(results),
        _ => None,
    }
}

/// The results in the reply that a message is.
pub(crate) fn results_of(message: &[u8], xid: u32) -> Option<&[u8]>
    ensures { ExactlySeen (λ bytes. bytes.now) (AreResults xid message.now) result }
{
    match read_reply(message) {
        Ok(head) => results_in(&head, xid),
        Err(_) => None,
    }
}

/// The reply, where it is a success.
fn kept_done(reply: NfsReply) -> Result<NfsReply, RecordFault>
    ensures { Exactly (λ kept. (kept ≡ reply) × (failure_in kept ≡ None)) result }
{
    if reply.failure().is_none() {
        Ok(reply)
    } else {
        Err(RecordFault::NoRecord)
    }
}

/// The success of these results.
pub(crate) fn reply_of(alloc: Global, procedure: u32, bytes: &[u8]) -> Result<NfsReply, RecordFault>
    ensures { Exactly (IsSuccess procedure bytes.now) result }
{
    match read_result(alloc, procedure, bytes) {
        Ok(reply) => kept_done(reply),
        Err(MessageFault::BadMessage { .. }) => Err(RecordFault::NoRecord),
        Err(MessageFault::NoMemory) => Err(RecordFault::NoMemory),
    }
}
