//! The procedure, the name and the reply of a call, in few words.

use byteorder::{BigEndian, ByteOrder};
use history_lines::{procedure_name, status_name};
use nfs_history::{KnownCalls, Meaning};
use nfs3_types::{NFS_PROGRAM, NFS_VERSION, NfsCall, Procedure};
use rpc_reader::{CallHead, ReplyBody, read_call, read_reply};
use std::alloc::{AllocError, Global};

/// How many bytes of a handle are told at most.
const HANDLE_BYTES: usize = 8;

/// The procedure of a call, if it is one of NFS version 3.
fn procedure_in(head: &CallHead<'_>) -> Option<Procedure> {
    if head.program != NFS_PROGRAM || head.version != NFS_VERSION {
        return None;
    }
    Procedure::from_number(head.procedure)
}

/// What procedure the message of a call asks for.
pub fn procedure_of(message: &[u8]) -> &'static str {
    let Ok(head) = read_call(message) else {
        return "no RPC call";
    };
    match procedure_in(&head) {
        Some(procedure) => procedure_name(procedure),
        None => "no procedure of NFS 3",
    }
}

/// The status of a result, if it is that of a procedure which has one.
fn status_of(message: &[u8], results: &[u8]) -> Option<&'static str> {
    let Ok(head) = read_call(message) else {
        return None;
    };
    match procedure_in(&head)? {
        Procedure::Null => None,
        _ if results.len() < 4 => None,
        _ => status_name(BigEndian::read_u32(results)),
    }
}

/// What the reply says first to the message of a call.
pub fn reply_to(message: &[u8], reply: &[u8]) -> &'static str {
    let Ok(head) = read_reply(reply) else {
        return "no RPC reply";
    };
    match head.body {
        ReplyBody::Success(results) => match status_of(message, results) {
            Some(status) => status,
            None => "SUCCESS",
        },
        ReplyBody::ProgUnavail => "PROG_UNAVAIL",
        ReplyBody::ProgMismatch(..) => "PROG_MISMATCH",
        ReplyBody::ProcUnavail => "PROC_UNAVAIL",
        ReplyBody::GarbageArgs => "GARBAGE_ARGS",
        ReplyBody::SystemErr => "SYSTEM_ERR",
        ReplyBody::RpcMismatch(..) => "RPC_MISMATCH",
        ReplyBody::AuthError(_) => "AUTH_ERROR",
    }
}

/// What a call asks for.
#[derive(Clone, Copy)]
enum Subject<'c> {
    Name(&'c [u8]),
    Names(&'c [u8], &'c [u8]),
    Handle(&'c [u8]),
}

fn subject_of(call: &NfsCall) -> Subject<'_> {
    match call {
        NfsCall::GetAttr(object) => Subject::Handle(object.as_slice()),
        NfsCall::SetAttr(call) => Subject::Handle(call.object.as_slice()),
        NfsCall::Lookup(place) | NfsCall::Remove(place) | NfsCall::RmDir(place) => {
            Subject::Name(place.name.as_slice())
        }
        NfsCall::ReadLink(link) => Subject::Handle(link.as_slice()),
        NfsCall::Read(call) => Subject::Handle(call.file.as_slice()),
        NfsCall::Write(call) => Subject::Handle(call.file.as_slice()),
        NfsCall::Create(call) => Subject::Name(call.place.name.as_slice()),
        NfsCall::MkDir(call) => Subject::Name(call.place.name.as_slice()),
        NfsCall::SymLink(call) => Subject::Name(call.place.name.as_slice()),
        NfsCall::Rename(call) => {
            Subject::Names(call.from.name.as_slice(), call.to.name.as_slice())
        }
        NfsCall::ReadDir(call) => Subject::Handle(call.directory.as_slice()),
        NfsCall::ReadDirPlus(call) => Subject::Handle(call.directory.as_slice()),
        NfsCall::Commit(call) => Subject::Handle(call.file.as_slice()),
    }
}

/// The words for a handle: its last bytes in hexadecimal, which differ most often.
fn handle_words(alloc: Global, handle: &[u8]) -> Result<Vec<u8>, AllocError> {
    let cut = handle.len().saturating_sub(HANDLE_BYTES);
    let end = handle.get(cut..).unwrap_or(handle);
    let digits = hex::encode(alloc, end)?;
    let words = if cut == 0 { "handle " } else { "handle .." };
    let mut words = Vec::from_slice(alloc, words.as_bytes())?;
    words.extend_from_slice(digits.as_bytes())?;
    Ok(words)
}

/// The words for what a call asks for: its name, its two names, or the end of its handle.
fn subject_words(alloc: Global, subject: Subject<'_>) -> Result<Vec<u8>, AllocError> {
    match subject {
        Subject::Name(name) => Vec::from_slice(alloc, name),
        Subject::Names(from, to) => {
            let mut words = Vec::from_slice(alloc, from)?;
            words.extend_from_slice(b" to ")?;
            words.extend_from_slice(to)?;
            Ok(words)
        }
        Subject::Handle(handle) => handle_words(alloc, handle),
    }
}

/// The name that a call asks for, or the handle. A call that isn't judged has none.
pub fn name_of(alloc: Global, known: &KnownCalls<'_>, number: u64) -> Result<Vec<u8>, AllocError> {
    let Some(call) = known.call(alloc, number)? else {
        return Ok(Vec::new(alloc));
    };
    match &call.meaning {
        Meaning::Judged(call) => subject_words(alloc, subject_of(call)),
        Meaning::Unjudged => Ok(Vec::new(alloc)),
    }
}
