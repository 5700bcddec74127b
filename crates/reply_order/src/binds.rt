//! The binds: each handle names what the first reply that gave it made.

ghost use Rattle.std.specs.Prelude.{◌≡◌, [], IfOk, length};
ghost use Rattle.std.specs.Option.{option_copied};
ghost use Rattle.tree_starts.specs.Start.{object_made};
ghost use Rattle.reply_order.specs.ReplyOrder.{makes_object, handle_in, handle_replied, handle_received};
ghost use Rattle.reply_order.specs.Making.{names_of, is_new, binds_with, given_at, binds_behind, AreSorted};

use crate::replies::Reply;
use certificate::Bind;
use nfs_history::{CallKind, KnownCalls};
use nfs3_types::{
    Answer, CreateSuccess, FileHandle, HANDLE_LIMIT, Held, NfsReply, Outcome, Procedure, WccData,
};
use std::alloc::{AllocError, Global};
use tree_handles::Binds;

/// Whether a call of this kind makes an object: CREATE, MKDIR and SYMLINK.
fn makes_object(kind: CallKind) -> bool
    ensures { result ≡ makes_object kind }
{
    match kind {
        CallKind::Answered(procedure, _) => {
            matches!(
                procedure,
                Procedure::Create | Procedure::MkDir | Procedure::SymLink
            )
        }
        _ => false,
    }
}

/// The handle in a successful answer.
fn handle_in(answer: &Answer<Held<CreateSuccess>, WccData>) -> Option<&FileHandle>
    ensures { option_copied result ≡ handle_in answer.now }
{
    match answer {
        Answer::Done(success) => success.object.as_ref(),
        Answer::Failed(..) => None,
    }
}

/// The handle of the object that a reply gives.
fn handle_replied(reply: &NfsReply) -> Option<&FileHandle>
    ensures { option_copied result ≡ handle_replied reply.now }
{
    match reply {
        NfsReply::Create(answer) => handle_in(answer),
        NfsReply::MkDir(answer) => handle_in(answer),
        NfsReply::SymLink(answer) => handle_in(answer),
        _ => None,
    }
}

/// The handle of the object that an outcome gives.
fn handle_received(outcome: &Option<Outcome>) -> Option<&FileHandle>
    ensures { option_copied result ≡ handle_received outcome.now }
{
    match outcome {
        Some(Outcome::Received(reply)) => handle_replied(reply),
        _ => None,
    }
}

/// The handle that an outcome gives, copied.
fn copied_handle(outcome: &Option<Outcome>) -> Result<Option<FileHandle>, AllocError>
    ensures { IfOk result (λ found. found ≡ handle_received outcome.now) }
{
    match handle_received(outcome) {
        Some(handle) => Ok(Some(handle.clone()?)),
        None => Ok(None),
    }
}

/// The handle that a call was given as a successful CREATE, MKDIR or SYMLINK. No other call is read again.
fn handle_given(
    alloc: Global,
    history: &KnownCalls<'_>,
    number: u64,
) -> Result<Option<FileHandle>, AllocError>
    ensures { IfOk result (λ found. found ≡ given_at history.now.calls number) }
{
    let Some(kind) = history.kind(number) else {
        return Ok(None);
    };
    if !makes_object(kind) {
        return Ok(None);
    }
    match history.call(alloc, number)? {
        Some(call) => copied_handle(&call.outcome),
        None => Ok(None),
    }
}

/// Whether a handle may be bound, and isn't yet.
fn is_new(names: &Binds, handle: &[u8]) -> bool
    ensures { result ≡ is_new names.now handle.now }
{
    0 < handle.len() && handle.len() <= HANDLE_LIMIT && names.object(handle).is_none()
}

/// The number of the object that a call makes. A history has too few calls and starting objects for a sum past 64 bits.
fn object_made(history: &KnownCalls<'_>, number: u64) -> Result<u64, AllocError>
    ensures { IfOk result (λ object. object ≡ object_made (length history.now.head.start) number) }
{
    match number.checked_add(history.start().count() as u64) {
        Some(object) => Ok(object),
        None => Err(AllocError),
    }
}

/// Binds the handle that a call was given, if it was given one that is new.
fn bind_given(
    alloc: Global,
    history: &KnownCalls<'_>,
    binds: &mut Vec<Bind>,
    names: &mut Binds,
    number: u64,
) -> Result<(), AllocError>
    requires { names.old ≡ names_of history.now.head.root binds.old.items }
    ensures names { IfOk result (λ _. names.new ≡ names_of history.now.head.root binds.new.items) }
    ensures binds { IfOk result (λ _. binds.new.items ≡ binds_with history.now.head binds.old.items number (given_at history.now.calls number)) }
{
    let Some(handle) = handle_given(alloc, history, number)? else {
        return Ok(());
    };
    if is_new(names, handle.as_slice()) {
        let object = object_made(history, number)?;
        names.push(handle.as_slice(), object)?;
        binds.push(Bind { handle, object })?;
    }
    Ok(())
}

/// The binds of the handles that replies gave, in the order of the replies.
fn given_binds(
    alloc: Global,
    history: &KnownCalls<'_>,
    replies: &[Reply],
) -> Result<Vec<Bind>, AllocError>
    ensures { IfOk result (λ v. v.items ≡ binds_behind history.now [] replies.now) }
{
    let mut names = Binds::of_root(alloc, history.root().as_slice())?;
    let mut binds = Vec::new(alloc);
    for reply in replies {
        bind_given(alloc, history, &mut binds, &mut names, reply.number)?;
    }
    Ok(binds)
}

/// The binds of the handles that replies gave, in the order of their handles.
pub fn sorted_binds(
    alloc: Global,
    history: &KnownCalls<'_>,
    replies: &[Reply],
) -> Result<Vec<Bind>, AllocError>
    ensures { IfOk result (λ v. AreSorted (binds_behind history.now [] replies.now) v.items) }
{
    let mut binds = given_binds(alloc, history, replies)?;
    binds.sort_by(|one, other| one.handle.as_slice().cmp(other.handle.as_slice()))?;
    Ok(binds)
}
