//! Replies that a right server doesn't give, beside those that `check` refuses.

use history_file::Event;
use indexmap::IndexMap;
use nfs_history::{CallKind, KnownCalls};
use nfs_relay::transaction;
use nfs3_types::{Answer, NFS_PROGRAM, NFS_VERSION, NfsCall, NfsReply, Outcome, Procedure};
use rpc_reader::{ReplyBody, read_call, read_reply};
use std::alloc::{AllocError, Global};

/// Calls of one kind.
#[derive(Clone, Copy, PartialEq, Eq)]
pub struct Met {
    /// How many there are.
    pub count: u64,
    /// The first of them, by its lane and its transaction number.
    pub first: (u32, u32),
}

/// The procedure of a call of NFS version 3, where its message is one.
pub(crate) fn procedure_of(message: &[u8]) -> Option<Procedure> {
    let head = read_call(message).ok()?;
    if head.program == NFS_PROGRAM && head.version == NFS_VERSION {
        Procedure::from_number(head.procedure)
    } else {
        None
    }
}

/// Whether a call has this message, and its reply is to be judged.
fn asks_judged(message: &[u8]) -> bool {
    matches!(procedure_of(message), Some(procedure) if procedure.is_judged())
}

/// Whether RPC refuses the call of a reply.
fn refuses(message: &[u8]) -> bool {
    match read_reply(message) {
        Ok(head) => !matches!(head.body, ReplyBody::Success(_)),
        Err(_) => false,
    }
}

/// One more of a kind.
fn one_more(met: Option<Met>, lane: u32, xid: u32) -> Option<Met> {
    match met {
        None => Some(Met {
            count: 1,
            first: (lane, xid),
        }),
        Some(met) => Some(Met {
            count: met.count.saturating_add(1),
            first: met.first,
        }),
    }
}

/// The calls of judged procedures that RPC refuses.
pub(crate) fn refused_by_rpc(alloc: Global, events: &[Event]) -> Result<Option<Met>, AllocError> {
    let mut open: IndexMap<(u32, u32), bool> = IndexMap::new(alloc);
    let mut met = None;
    for event in events {
        match event {
            Event::Call { lane, message } => {
                let message = message.as_slice();
                open.insert((*lane, transaction(message)), asks_judged(message))?;
            }
            Event::Reply { lane, message } => {
                let (message, lane) = (message.as_slice(), *lane);
                let xid = transaction(message);
                if open.swap_remove(&(lane, xid)) == Some(true) && refuses(message) {
                    met = one_more(met, lane, xid);
                }
            }
            Event::Close { .. } => {}
            Event::Crash => {}
        }
    }
    Ok(met)
}

/// Whether a READ asks for bytes.
fn asks_bytes(call: &NfsCall) -> bool {
    match call {
        NfsCall::Read(read) => read.count > 0,
        _ => false,
    }
}

/// Whether a WRITE brings bytes.
fn brings_bytes(call: &NfsCall) -> bool {
    match call {
        NfsCall::Write(write) => !write.bytes.as_slice().is_empty(),
        _ => false,
    }
}

/// Whether a reply succeeds and gives nothing of what its call asks for, and not the end either: no byte of a file, no name of a directory, or
/// no byte taken.
fn gives_nothing(call: &NfsCall, reply: &NfsReply) -> bool {
    match reply {
        NfsReply::Read(answer) => match answer {
            Answer::Done(done) => done.count == 0 && !done.eof && asks_bytes(call),
            Answer::Failed(..) => false,
        },
        NfsReply::Write(answer) => match answer {
            Answer::Done(done) => done.count == 0 && brings_bytes(call),
            Answer::Failed(..) => false,
        },
        NfsReply::ReadDir(answer) => match answer {
            Answer::Done(done) => done.entries.as_slice().is_empty() && !done.eof,
            Answer::Failed(..) => false,
        },
        NfsReply::ReadDirPlus(answer) => match answer {
            Answer::Done(done) => done.entries.as_slice().is_empty() && !done.eof,
            Answer::Failed(..) => false,
        },
        _ => false,
    }
}

/// Whether a call of this kind may be given nothing.
fn may_give_nothing(kind: CallKind) -> bool {
    match kind {
        CallKind::Answered(procedure, None) => matches!(
            procedure,
            Procedure::Read | Procedure::Write | Procedure::ReadDir | Procedure::ReadDirPlus
        ),
        _ => false,
    }
}

/// Whether a judged call got a reply that gives nothing.
fn got_nothing(call: &NfsCall, outcome: &Option<Outcome>) -> bool {
    match outcome {
        Some(Outcome::Received(reply)) => gives_nothing(call, reply),
        _ => false,
    }
}

/// Whether call `number` of a history got a reply that gives nothing.
fn is_given_nothing(
    alloc: Global,
    known: &KnownCalls<'_>,
    number: u64,
) -> Result<bool, AllocError> {
    let Some(call) = known.call(alloc, number)? else {
        return Ok(false);
    };
    match call.into_judged() {
        Some((call, outcome)) => Ok(got_nothing(&call, &outcome)),
        None => Ok(false),
    }
}

/// How many calls of a history got a reply that gives nothing, and the first of them.
pub(crate) fn given_nothing(
    alloc: Global,
    known: &KnownCalls<'_>,
) -> Result<(u64, u64), AllocError> {
    let (mut count, mut first) = (0u64, 0u64);
    for (index, kind) in known.kinds().iter().enumerate() {
        let number = (index as u64).saturating_add(1);
        if may_give_nothing(*kind) && is_given_nothing(alloc, known, number)? {
            count = count.saturating_add(1);
            first = if first == 0 { number } else { first };
        }
    }
    Ok((count, first))
}
