//! What a call with its outcome makes of a tree.

ghost use Rattle.tree_nodes.specs.Tree.{Tree};
ghost use Rattle.file_tree.specs.Planning.{Plans};
ghost use Rattle.file_tree.specs.Change.Change.{Keep};
ghost use Rattle.file_tree.specs.Success.{change_written, change_created, change_set, change_directory_made, change_link_made, change_removed, change_directory_removed, change_renamed, change_done, change_received, change_taken, change_of};
ghost use Rattle.file_tree.specs.Made.{only_if};

use crate::create::create_change;
use crate::naming::{make_directory, make_link, remove_directory, remove_entry, set_attributes};
use crate::object_change::ObjectChange;
use crate::rename::rename;
use crate::write::write_change;
use nfs3_types::{
    Answer, CreateArguments, DirectoryName, MkDirArguments, NfsCall, NfsReply, Outcome,
    RenameArguments, SetAttrArguments, SymLinkArguments, WriteArguments,
};
use replay_law::StepFault;
use std::alloc::Global;
use tree_answers::tree_handles::View;
use tree_answers::{
    commit_is_legal, getattr_is_legal, is_permitted, lookup_is_legal, read_is_legal,
    readdir_is_legal, readdirplus_is_legal, readlink_is_legal,
};

/// The tree stays, where this is right.
fn keep_if<'a>(right: bool) -> Result<ObjectChange<'a>, StepFault>
    ensures { (tree : Tree) → Plans tree result (only_if right Keep) }
{
    if right {
        Ok(ObjectChange::Keep)
    } else {
        Err(StepFault::NotAllowed)
    }
}

/// A reply to a WRITE.
fn change_written<'a>(
    view: &View<'_>,
    call: &'a WriteArguments,
    reply: &NfsReply,
) -> Result<ObjectChange<'a>, StepFault>
    ensures { Plans view.now.nodes.now result (change_written view.now.binds.now view.now.nodes.now call.now reply.now) }
{
    match reply {
        NfsReply::Write(Answer::Done(success)) => {
            write_change(view, call, success.count, Some(success.level))
        }
        _ => Err(StepFault::NotAllowed),
    }
}

/// A reply to a CREATE.
fn change_created<'a>(
    alloc: Global,
    view: &View<'_>,
    number: u64,
    call: &'a CreateArguments,
    reply: &NfsReply,
) -> Result<ObjectChange<'a>, StepFault>
    ensures { Plans view.now.nodes.now result (change_created view.now.binds.now view.now.nodes.now number call.now reply.now) }
{
    match reply {
        NfsReply::Create(Answer::Done(success)) => {
            create_change(alloc, view, number, call, &success.object)
        }
        _ => Err(StepFault::NotAllowed),
    }
}

/// A reply to a SETATTR.
fn change_set<'a>(
    view: &View<'_>,
    call: &'a SetAttrArguments,
    reply: &NfsReply,
) -> Result<ObjectChange<'a>, StepFault>
    ensures { Plans view.now.nodes.now result (change_set view.now.binds.now view.now.nodes.now call.now reply.now) }
{
    match reply {
        NfsReply::SetAttr(Answer::Done(_)) => set_attributes(view, call),
        _ => Err(StepFault::NotAllowed),
    }
}

/// A reply to a MKDIR.
fn change_directory_made<'a>(
    view: &View<'_>,
    number: u64,
    call: &'a MkDirArguments,
    reply: &NfsReply,
) -> Result<ObjectChange<'a>, StepFault>
    ensures { Plans view.now.nodes.now result (change_directory_made view.now.binds.now view.now.nodes.now number call.now reply.now) }
{
    match reply {
        NfsReply::MkDir(Answer::Done(success)) => make_directory(
            view,
            number,
            call,
            &success.object,
        ),
        _ => Err(StepFault::NotAllowed),
    }
}

/// A reply to a SYMLINK.
fn change_link_made<'a>(
    alloc: Global,
    view: &View<'_>,
    number: u64,
    call: &'a SymLinkArguments,
    reply: &NfsReply,
) -> Result<ObjectChange<'a>, StepFault>
    ensures { Plans view.now.nodes.now result (change_link_made view.now.binds.now view.now.nodes.now number call.now reply.now) }
{
    match reply {
        NfsReply::SymLink(Answer::Done(success)) => make_link(
            alloc,
            view,
            number,
            call,
            &success.object,
        ),
        _ => Err(StepFault::NotAllowed),
    }
}

/// A reply to a REMOVE.
fn change_removed<'a>(
    view: &View<'_>,
    place: &'a DirectoryName,
    reply: &NfsReply,
) -> Result<ObjectChange<'a>, StepFault>
    ensures { Plans view.now.nodes.now result (change_removed view.now.binds.now view.now.nodes.now place.now reply.now) }
{
    match reply {
        NfsReply::Remove(Answer::Done(_)) => remove_entry(view, place),
        _ => Err(StepFault::NotAllowed),
    }
}

/// A reply to an RMDIR.
fn change_directory_removed<'a>(
    view: &View<'_>,
    place: &'a DirectoryName,
    reply: &NfsReply,
) -> Result<ObjectChange<'a>, StepFault>
    ensures { Plans view.now.nodes.now result (change_directory_removed view.now.binds.now view.now.nodes.now place.now reply.now) }
{
    match reply {
        NfsReply::RmDir(Answer::Done(_)) => remove_directory(view, place),
        _ => Err(StepFault::NotAllowed),
    }
}

/// A reply to a RENAME.
fn change_renamed<'a>(
    view: &View<'_>,
    call: &'a RenameArguments,
    reply: &NfsReply,
) -> Result<ObjectChange<'a>, StepFault>
    ensures { Plans view.now.nodes.now result (change_renamed view.now.binds.now view.now.nodes.now call.now reply.now) }
{
    match reply {
        NfsReply::Rename(Answer::Done(_)) => rename(view, call),
        _ => Err(StepFault::NotAllowed),
    }
}

/// The call succeeded.
fn change_done<'a>(
    alloc: Global,
    view: &View<'_>,
    number: u64,
    call: &'a NfsCall,
    reply: &NfsReply,
) -> Result<ObjectChange<'a>, StepFault>
    ensures { Plans view.now.nodes.now result (change_done view.now.binds.now view.now.nodes.now number call.now reply.now) }
{
    match call {
        NfsCall::GetAttr(object) => keep_if(getattr_is_legal(view, object, reply)),
        NfsCall::Lookup(place) => keep_if(lookup_is_legal(view, place, reply)),
        NfsCall::ReadLink(link) => keep_if(readlink_is_legal(view, link, reply)),
        NfsCall::Read(call) => keep_if(read_is_legal(view, call, reply)),
        NfsCall::ReadDir(call) => keep_if(readdir_is_legal(alloc, view, call, reply)?),
        NfsCall::ReadDirPlus(call) => keep_if(readdirplus_is_legal(alloc, view, call, reply)?),
        NfsCall::Commit(call) => keep_if(commit_is_legal(view, &call.file, reply)),
        NfsCall::Write(call) => change_written(view, call, reply),
        NfsCall::Create(call) => change_created(alloc, view, number, call, reply),
        NfsCall::SetAttr(call) => change_set(view, call, reply),
        NfsCall::MkDir(call) => change_directory_made(view, number, call, reply),
        NfsCall::SymLink(call) => change_link_made(alloc, view, number, call, reply),
        NfsCall::Remove(place) => change_removed(view, place, reply),
        NfsCall::RmDir(place) => change_directory_removed(view, place, reply),
        NfsCall::Rename(call) => change_renamed(view, call, reply),
    }
}

/// A reply was received.
fn change_received<'a>(
    alloc: Global,
    view: &View<'_>,
    number: u64,
    call: &'a NfsCall,
    reply: &NfsReply,
) -> Result<ObjectChange<'a>, StepFault>
    ensures { Plans view.now.nodes.now result (change_received view.now.binds.now view.now.nodes.now number call.now reply.now) }
{
    let Some(failure) = reply.failure() else {
        return change_done(alloc, view, number, call, reply);
    };
    if !call.is_answered_by(reply) {
        return Err(StepFault::NotAllowed);
    }
    keep_if(is_permitted(view, call, failure))
}

/// The call is taken as done.
pub(crate) fn change_taken<'a>(
    alloc: Global,
    view: &View<'_>,
    number: u64,
    call: &'a NfsCall,
    count: Option<u32>,
) -> Result<ObjectChange<'a>, StepFault>
    ensures { Plans view.now.nodes.now result (change_taken view.now.binds.now view.now.nodes.now number call.now count) }
{
    match (call, count) {
        (NfsCall::Write(call), Some(count)) => write_change(view, call, count, None),
        (NfsCall::Create(call), None) => create_change(alloc, view, number, call, &None),
        (NfsCall::SetAttr(call), None) => set_attributes(view, call),
        (NfsCall::MkDir(call), None) => make_directory(view, number, call, &None),
        (NfsCall::SymLink(call), None) => make_link(alloc, view, number, call, &None),
        (NfsCall::Remove(place), None) => remove_entry(view, place),
        (NfsCall::RmDir(place), None) => remove_directory(view, place),
        (NfsCall::Rename(call), None) => rename(view, call),
        _ => Err(StepFault::NotAllowed),
    }
}

/// What a call with its outcome makes of the tree.
pub(crate) fn change_of<'a>(
    alloc: Global,
    view: &View<'_>,
    number: u64,
    call: &'a NfsCall,
    outcome: &Outcome,
) -> Result<ObjectChange<'a>, StepFault>
    ensures { Plans view.now.nodes.now result (change_of view.now.binds.now view.now.nodes.now number call.now outcome.now) }
{
    match outcome {
        Outcome::Received(reply) => change_received(alloc, view, number, call, reply),
        Outcome::Taken(count) => change_taken(alloc, view, number, call, *count),
    }
}
