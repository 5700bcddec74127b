//! What a record is for the calls that are open.

ghost use Rattle.std.specs.Prelude.{◌≡◌, IfOk, OnOk, OnErr};
ghost use Rattle.nfs3_types.specs.Procedures.{procedure_called};
ghost use Rattle.night_lanes.specs.Hearing.{IsHeard, IsResultHeard};
ghost use Rattle.history_file.specs.Event.Event.{reply};
ghost use Rattle.night_lanes.specs.Noting.{GainsIf, Stays};
ghost use Rattle.night_lanes.specs.Telling.{noted_at};

use crate::notes::{Notes, Unnoted};
use crate::open_calls::{OpenCalls, Standing};
use nfs3_msgs::{Kind, MessageFault, NfsReply, read_result};
use nfs3_types::NfsCall;
use rpc_client::Refusal;
use rpc_reader::{ReplyBody, RpcFault, read_reply};
use std::alloc::{AllocError, Global};

/// What a record that came on a lane is.
#[derive(Drop)]
pub enum Heard {
    /// The reply to the open call at this place, with a result of its procedure.
    Answer(usize, NfsReply),
    /// A reply to the open call at this place. Its result isn't in the grammar of RFC 1813: the first item at fault, by its offset.
    BadResult(usize, usize, Kind),
    /// The reply to the open call at this place, which RPC refused.
    Refused(usize, Refusal),
    /// A reply to a call that has one.
    SecondReply(u32),
    /// A reply to no call.
    Unknown(u32),
    /// No reply of RPC.
    NoReply(RpcFault),
}

impl Heard {
    /// The place of the open call whose reply it is, which is to be noted.
    pub fn noted_at(&self) -> Option<usize>
        ensures { result ≡ noted_at self.now }
    {
        match self {
            Heard::Answer(place, _) => Some(*place),
            Heard::BadResult(place, _, _) => Some(*place),
            Heard::Refused(place, _) => Some(*place),
            Heard::SecondReply(_) => None,
            Heard::Unknown(_) => None,
            Heard::NoReply(_) => None,
        }
    }
}

/// Has a record noted on a lane as a reply, if it is the reply to an open call.
pub fn note_heard<N: Notes>(
    notes: &mut N,
    lane: u32,
    heard: &Heard,
    message: &[u8],
) -> Result<(), Unnoted>
    ensures noted { OnOk result (GainsIf (noted_at heard.now) (N.recording notes.old) (N.recording notes.new) (reply lane message.now)) }
    ensures kept { OnErr result (Stays (N.recording notes.old) (N.recording notes.new)) }
{
    match heard.noted_at() {
        Some(_) => notes.note_reply(lane, message),
        None => Ok(()),
    }
}

/// The result of the open call at a place.
fn hear_result(
    alloc: Global,
    place: usize,
    call: &NfsCall,
    results: &[u8],
) -> Result<Heard, AllocError>
    ensures { IfOk result (IsResultHeard place (procedure_called call.now) results.now) }
{
    match read_result(alloc, call.procedure().number(), results) {
        Ok(reply) => Ok(Heard::Answer(place, reply)),
        Err(MessageFault::BadMessage { at, kind }) => Ok(Heard::BadResult(place, at, kind)),
        Err(MessageFault::NoMemory) => Err(AllocError),
    }
}

/// What a record is.
pub fn hear(alloc: Global, calls: &OpenCalls, message: &[u8]) -> Result<Heard, AllocError>
    ensures { IfOk result (IsHeard calls.now message.now) }
{
    let head = match read_reply(message) {
        Ok(head) => head,
        Err(fault) => return Ok(Heard::NoReply(fault)),
    };
    let place = match calls.standing(head.xid) {
        Standing::Open(place) => place,
        Standing::Answered => return Ok(Heard::SecondReply(head.xid)),
        Standing::Unknown => return Ok(Heard::Unknown(head.xid)),
    };
    if let Some(refusal) = Refusal::in_body(&head.body) {
        return Ok(Heard::Refused(place, refusal));
    }
    match head.body {
        ReplyBody::Success(results) => {
            hear_result(alloc, place, &calls.calls()[place].call, results)
        }
        _ => unreachable!(),
    }
}
