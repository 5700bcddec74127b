//! The head of a reply.

ghost use Rattle.std.specs.Prelude.{◌≡◌, IfOk, IfErr, IsOkAnd};
ghost use Rattle.xdr_records.specs.Grammar.Grammar.{named};
ghost use Rattle.xdr_records.specs.Kinds.{Tells, kind_reading};
ghost use Rattle.rpc_reader.specs.Heads.{kind_of};
ghost use Rattle.rpc_reader.specs.ReplyHeads.{reply_type, versions, accepted_reply, rejected_reply, reply_body, reply_head};
ghost use Rattle.rpc_reader.specs.Views.{status_of, start_of, ending_at, reply_from, reply_value, HoldsResults};
ghost use Rattle.rpc_reader.specs.declared.fault.RpcFault.{RpcFault};
ghost use Rattle.rpc_reader.specs.Values.{ReplyValue};
ghost use Rattle.rpc_reader.specs.Messages.{IsReply, ReplyFails};

use crate::fault::RpcFault;
use crate::item::{auth, rpc_fault, word};
use xdr_records::Reader;

/// What a reply says of its call.
#[derive(Clone, Copy)]
pub enum ReplyBody<'a> {
    /// The results of the procedure: the bytes of the message behind the head.
    Success(&'a [u8]),
    /// `PROG_UNAVAIL`, 1: the server hasn't the program.
    ProgUnavail,
    /// The lowest and the highest version of the program that there is.
    ProgMismatch(u32, u32),
    /// `PROC_UNAVAIL`, 3: the program hasn't the procedure.
    ProcUnavail,
    /// `GARBAGE_ARGS`, 4: the server can't read the arguments.
    GarbageArgs,
    /// `SYSTEM_ERR`, 5: an error of the server, such as want of memory.
    SystemErr,
    /// The lowest and the highest version of the protocol that there is.
    RpcMismatch(u32, u32),
    /// Why the caller isn't believed.
    AuthError(u32),
}

/// A reply to the call with this transaction identifier.
#[derive(Clone, Copy)]
pub struct ReplyHead<'a> {
    /// `xid`: the transaction identifier of the call.
    pub xid: u32,
    /// What the reply says of the call.
    pub body: ReplyBody<'a>,
}

fn reply_type(reader: &mut Reader<'_>) -> Result<(), RpcFault>
    ensures { Tells (λ u. u) reader.new result (kind_reading kind_of (named reply_type) reader.old) }
{
    match word(reader)? {
        0 => Err(RpcFault::NotReply),
        1 => Ok(()),
        _ => Err(RpcFault::BadEnum),
    }
}

// The lowest and the highest version.
#[tactic(auto, unfolding(crate::specs::ReplyHeads::versions))]
fn versions(reader: &mut Reader<'_>) -> Result<(u32, u32), RpcFault>
    ensures { Tells (λ range. (range.0, range.1)) reader.new result (kind_reading kind_of versions reader.old) }
{
    let low = word(reader)?;
    let high = word(reader)?;
    Ok((low, high))
}

#[tactic(auto, unfolding(crate::specs::ReplyHeads::accepted_reply))]
fn accepted<'a>(reader: &mut Reader<'a>) -> Result<ReplyBody<'a>, RpcFault>
    ensures status { Tells status_of reader.new result (kind_reading kind_of accepted_reply reader.old) }
    ensures results { IfOk result (HoldsResults reader.new) }
{
    auth(reader)?;
    match word(reader)? {
        0 => Ok(ReplyBody::Success(reader.rest())),
        1 => Ok(ReplyBody::ProgUnavail),
        2 => {
            let (low, high) = versions(reader)?;
            Ok(ReplyBody::ProgMismatch(low, high))
        }
        3 => Ok(ReplyBody::ProcUnavail),
        4 => Ok(ReplyBody::GarbageArgs),
        5 => Ok(ReplyBody::SystemErr),
        _ => Err(RpcFault::BadEnum),
    }
}

#[tactic(auto, unfolding(crate::specs::ReplyHeads::rejected_reply))]
fn denied<'a>(reader: &mut Reader<'a>) -> Result<ReplyBody<'a>, RpcFault>
    ensures status { Tells status_of reader.new result (kind_reading kind_of rejected_reply reader.old) }
    ensures results { IfOk result (HoldsResults reader.new) }
{
    match word(reader)? {
        0 => {
            let (low, high) = versions(reader)?;
            Ok(ReplyBody::RpcMismatch(low, high))
        }
        1 => Ok(ReplyBody::AuthError(word(reader)?)),
        _ => Err(RpcFault::BadEnum),
    }
}

#[tactic(auto, unfolding(crate::specs::ReplyHeads::reply_body))]
fn body<'a>(reader: &mut Reader<'a>) -> Result<ReplyBody<'a>, RpcFault>
    ensures status { Tells status_of reader.new result (kind_reading kind_of reply_body reader.old) }
    ensures results { IfOk result (HoldsResults reader.new) }
{
    match word(reader)? {
        0 => accepted(reader),
        1 => denied(reader),
        _ => Err(RpcFault::BadEnum),
    }
}

#[tactic(auto, unfolding(crate::specs::ReplyHeads::reply_head))]
fn head<'a>(reader: &mut Reader<'a>) -> Result<ReplyHead<'a>, RpcFault>
    ensures start { Tells start_of reader.new result (kind_reading kind_of reply_head reader.old) }
    ensures results { IfOk result (λ reply. HoldsResults reader.new reply.body) }
{
    let xid = word(reader)?;
    reply_type(reader)?;
    let body = body(reader)?;
    Ok(ReplyHead { xid, body })
}

// Nothing stands behind a reply that has no results.
fn ended(reader: &Reader<'_>, body: &ReplyBody<'_>) -> Result<(), RpcFault>
    ensures { result ≡ ending_at (status_of body.now) reader.now }
{
    match body {
        ReplyBody::Success(_) => Ok(()),
        _ => reader.done().map_err(rpc_fault),
    }
}

fn whole<'a>(reader: &mut Reader<'a>) -> Result<ReplyHead<'a>, RpcFault>
    ensures start { Tells start_of reader.new result (reply_from reader.old) }
    ensures results { IfOk result (λ reply. HoldsResults reader.new reply.body) }
{
    let reply = head(reader)?;
    ended(reader, &reply.body)?;
    Ok(reply)
}

/// The reply that a message is. Nothing is copied.
pub fn read_reply(message: &[u8]) -> Result<ReplyHead<'_>, RpcFault>
    // What is read is the message.
    ensures found { IfOk result (λ reply. IsReply message.now (reply_value reply)) }
    // What the message is, is read.
    ensures only { (value : ReplyValue) → IsReply message.now value → IsOkAnd result (λ reply. reply_value reply ≡ value) }
    // The fault is that of the first item at fault, and comes wherever one is.
    ensures fault { IfErr result (λ fault. ReplyFails message.now fault) }
    ensures fails { (fault : RpcFault) → ReplyFails message.now fault → result ≡ Err fault }
{
    whole(&mut Reader::new(message))
}
