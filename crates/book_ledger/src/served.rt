//! Which replies the server may give.

ghost use Rattle.std.specs.Prelude.{◌↔◌, IfOk, IsTrue};
ghost use Rattle.book_laws.specs.Served.{IsFull, IsServed};
ghost use Rattle.book_ledger.specs.Serving.{IsAllowed, IsFree, HasAll, ReadsAll, WritesAll};

use file_tree::{Binds, FileTree};
use nfs3_types::{
    Answer, Failure, NfsCall, NfsReply, ReadArguments, ReadSuccess, TRANSFER_LIMIT, WriteArguments,
};
use std::alloc::AllocError;
use tree_handles::{View, file_of};

/// Whether a READ gives as many bytes as it is to.
fn is_whole(binds: &Binds, tree: &FileTree, call: &ReadArguments, success: &ReadSuccess) -> bool
    ensures { IsTrue result ↔ HasAll binds.now tree.now call.now success.now }
{
    let view = View {
        binds,
        nodes: tree.nodes(),
    };
    match file_of(&view, &call.file) {
        Some(entry) => {
            let left = entry.file.bytes.len().saturating_sub(call.offset);
            let asked = left.min(u64::from(call.count)).min(TRANSFER_LIMIT as u64);
            success.bytes.as_slice().len() as u64 == asked
        }
        None => true,
    }
}

/// Whether a reply to a READ, where it is a success, gives as many bytes as it is to.
fn is_read_whole(binds: &Binds, tree: &FileTree, call: &ReadArguments, reply: &NfsReply) -> bool
    ensures { IsTrue result ↔ ReadsAll binds.now tree.now call.now reply.now }
{
    match reply {
        NfsReply::Read(Answer::Done(success)) => is_whole(binds, tree, call, success),
        _ => true,
    }
}

/// Whether a reply to a WRITE, where it is a success, counts all its data.
fn is_written_whole(call: &WriteArguments, reply: &NfsReply) -> bool
    ensures { IsTrue result ↔ WritesAll call.now reply.now }
{
    match reply {
        NfsReply::Write(Answer::Done(success)) => {
            success.count as usize == call.bytes.as_slice().len()
        }
        _ => true,
    }
}

/// Whether a success does all that was asked for. That it is right is the tree's matter.
fn is_full(binds: &Binds, tree: &FileTree, call: &NfsCall, reply: &NfsReply) -> bool
    ensures full { IsTrue result → IsAllowed binds.now tree.now call.now reply.now → IsFull binds.now tree.now call.now reply.now }
    ensures not_full { IsFull binds.now tree.now call.now reply.now → IsTrue result }
{
    match call {
        NfsCall::Write(call) => is_written_whole(call, reply),
        NfsCall::Read(call) => is_read_whole(binds, tree, call, reply),
        _ => true,
    }
}

/// Whether a failure may be given whatever else holds: a list that is too small, a text that is too long.
fn is_free(call: &NfsCall, failure: Failure) -> bool
    ensures { IsTrue result ↔ IsFree call.now failure }
{
    match call {
        NfsCall::ReadDir(_) | NfsCall::ReadDirPlus(_) => failure == Failure::TooSmall,
        NfsCall::SymLink(call) => {
            failure == Failure::NameTooLong && call.target.as_slice().len() > TRANSFER_LIMIT
        }
        _ => false,
    }
}

/// Whether the server may give call `number` this reply, where the tree allows it.
pub(crate) fn is_served(
    binds: &Binds,
    tree: &FileTree,
    number: u64,
    call: &NfsCall,
    reply: &NfsReply,
) -> Result<bool, AllocError>
    ensures served { IfOk result (λ served. IsTrue served → IsAllowed binds.now tree.now call.now reply.now → IsServed binds.now tree.now number call.now reply.now) }
    ensures refused { IfOk result (λ served. IsServed binds.now tree.now number call.now reply.now → IsTrue served) }
{
    match reply.failure() {
        None => Ok(is_full(binds, tree, call, reply)),
        Some(failure) => {
            if is_free(call, failure) {
                return Ok(true);
            }
            let allowed = tree.allows(binds, number, call)?;
            Ok(!allowed)
        }
    }
}
