//! Which answers did nothing.

ghost use Rattle.std.specs.Prelude.{◌≡◌};
ghost use Rattle.history_report.specs.Counted.{is_excused_status};
ghost use Rattle.night_answers.specs.Idle.{asks_for_bytes, is_empty_read, is_empty_write, is_empty_list, is_empty_list_plus, gives_nothing, asks_for_names, is_excused_reply, has_status, is_vain, was_idle};

use nfs3_types::{
    Answer, Failure, FileAttributes, Held, NfsCall, NfsReply, Optional, ReadDirPlusSuccess,
    ReadDirSuccess, ReadSuccess, WccData, WriteSuccess,
};
use tree_answers::is_judged_status;

/// How many bytes of a list are enough for any name.
const ENOUGH: u32 = 1024;

/// Whether a call asks for something: a READ and a WRITE of no byte don't.
fn asks_for_bytes(call: &NfsCall) -> bool
    ensures { result ≡ asks_for_bytes call.now }
{
    match call {
        NfsCall::Read(read) => read.count > 0,
        NfsCall::Write(write) => write.count > 0,
        _ => true,
    }
}

/// Whether a READ gave no byte, and isn't at the end.
fn is_empty_read(answer: &Answer<ReadSuccess, Optional<FileAttributes>>) -> bool
    ensures { result ≡ is_empty_read answer.now }
{
    match answer {
        Answer::Done(read) => read.bytes.as_slice().is_empty() && !read.eof,
        Answer::Failed(..) => false,
    }
}

/// Whether a WRITE took no byte.
fn is_empty_write(answer: &Answer<WriteSuccess, WccData>) -> bool
    ensures { result ≡ is_empty_write answer.now }
{
    match answer {
        Answer::Done(written) => written.count == 0,
        Answer::Failed(..) => false,
    }
}

/// Whether a list has no name, and isn't at its end.
fn is_empty_list(answer: &Answer<Held<ReadDirSuccess>, Optional<FileAttributes>>) -> bool
    ensures { result ≡ is_empty_list answer.now }
{
    match answer {
        Answer::Done(list) => list.entries.as_slice().is_empty() && !list.eof,
        Answer::Failed(..) => false,
    }
}

/// The same of a list with handles.
fn is_empty_list_plus(answer: &Answer<Held<ReadDirPlusSuccess>, Optional<FileAttributes>>) -> bool
    ensures { result ≡ is_empty_list_plus answer.now }
{
    match answer {
        Answer::Done(list) => list.entries.as_slice().is_empty() && !list.eof,
        Answer::Failed(..) => false,
    }
}

/// Whether a reply is a success that gives or takes nothing.
fn gives_nothing(reply: &NfsReply) -> bool
    ensures { result ≡ gives_nothing reply.now }
{
    match reply {
        NfsReply::Read(answer) => is_empty_read(answer),
        NfsReply::Write(answer) => is_empty_write(answer),
        NfsReply::ReadDir(answer) => is_empty_list(answer),
        NfsReply::ReadDirPlus(answer) => is_empty_list_plus(answer),
        _ => false,
    }
}

/// Whether a list was asked for in which any name has room.
fn asks_for_names(call: &NfsCall) -> bool
    ensures { result ≡ asks_for_names call.now }
{
    match call {
        NfsCall::ReadDir(list) => list.count >= ENOUGH,
        NfsCall::ReadDirPlus(list) => list.directory_count >= ENOUGH && list.whole_count >= ENOUGH,
        _ => false,
    }
}

/// Whether a reply is a failure that may answer any call.
pub(crate) fn is_excused_reply(reply: &NfsReply) -> bool
    ensures { result ≡ is_excused_reply reply.now }
{
    match reply.failure() {
        Some(failure) => !is_judged_status(failure),
        None => false,
    }
}

/// Whether a reply has this status.
pub(crate) fn has_status(reply: &NfsReply, status: Failure) -> bool
    ensures { result ≡ has_status reply.now status }
{
    match reply.failure() {
        Some(failure) => failure.number() == status.number(),
        None => false,
    }
}

/// Whether a reply is a failure that may answer any call, and says neither that the call asks for what can't be nor that it may be made again.
fn is_vain(reply: &NfsReply) -> bool
    ensures { result ≡ is_vain reply.now }
{
    is_excused_reply(reply)
        && !has_status(reply, Failure::Invalid)
        && !has_status(reply, Failure::Jukebox)
}

/// Whether a reply did nothing of what its call asked for.
pub(crate) fn was_idle(call: &NfsCall, reply: &NfsReply) -> bool
    ensures { result ≡ was_idle call.now reply.now }
{
    is_vain(reply)
        || has_status(reply, Failure::TooSmall) && asks_for_names(call)
        || asks_for_bytes(call) && gives_nothing(reply)
}
