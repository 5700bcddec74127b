//! The handles that a success gives, with the objects that they have to name.

ghost use Rattle.std.specs.Prelude.{◌≡◌, [], ◌∷◌, ◌++◌, IfOk, OnOk, IsSome};
ghost use Rattle.std.specs.List.{flat_map};
ghost use Rattle.tree_nodes.specs.Place.{path_of};
ghost use Rattle.tree_handles.specs.Standing.{place_of};
ghost use Rattle.decision_steps.specs.Given.{given_as, given_beside, object_found, object_created, given_in, given};
ghost use Rattle.decision_steps.specs.Listed.{given_pairs};

use nfs3_types::{
    Answer, DirectoryEntryPlus, DirectoryName, FileHandle, NfsCall, NfsReply, Outcome,
    ReadDirPlusArguments,
};
use std::alloc::{AllocError, Global};
use tree_answers::object_named;
use tree_handles::{View, directory_of, entry_at, named};
use tree_nodes::Nodes;

/// A handle that a reply gives, and the object that it has to name.
#[derive(Clone, Copy)]
pub(crate) struct GivenHandle<'a> {
    pub(crate) handle: &'a FileHandle,
    pub(crate) object: u64,
}

/// Notes a handle of an object.
fn note_one<'a>(
    list: &mut Vec<GivenHandle<'a>>,
    handle: &'a FileHandle,
    object: u64,
) -> Result<(), AllocError>
    ensures { OnOk result (given_pairs list.new.items ≡ given_pairs list.old.items ++ (handle.now, object) ∷ []) }
{
    list.push(GivenHandle { handle, object })?;
    Ok(())
}

/// Notes a handle of an object, if the reply gives one.
fn note<'a>(
    list: &mut Vec<GivenHandle<'a>>,
    handle: &'a Option<FileHandle>,
    object: u64,
) -> Result<(), AllocError>
    ensures { OnOk result (given_pairs list.new.items ≡ given_pairs list.old.items ++ given_as handle.now object) }
{
    match handle {
        Some(handle) => note_one(list, handle, object),
        None => Ok(()),
    }
}

/// The object that a LOOKUP finds.
fn object_found(view: &View<'_>, place: &DirectoryName) -> Option<u64>
    ensures { result ≡ object_found view.now.binds.now view.now.nodes.now place.now }
{
    let directory = directory_of(view, &place.directory)?;
    object_named(view.nodes, directory, place.name.as_slice())
}

/// The object of a CREATE that would make the object of this number.
fn object_created(view: &View<'_>, number: u64, place: &DirectoryName) -> u64
    ensures { result ≡ object_created view.now.binds.now view.now.nodes.now number place.now }
{
    match named(view, place) {
        Some(node) => node.object,
        None => number,
    }
}

/// Notes the handle beside an entry of a directory.
fn note_beside<'a>(
    list: &mut Vec<GivenHandle<'a>>,
    nodes: &Nodes,
    directory: u64,
    entry: &'a DirectoryEntryPlus,
) -> Result<(), AllocError>
    requires { IsSome (path_of nodes.now directory) }
    ensures { OnOk result (given_pairs list.new.items
        ≡ given_pairs list.old.items ++ given_beside nodes.now (place_of nodes.now directory) entry.now) }
{
    match entry_at(nodes, directory, entry.name.as_slice()) {
        Some(node) => note(list, &entry.object, node.object),
        None => Ok(()),
    }
}

/// Notes the handles beside entries of a directory.
fn note_listed<'a>(
    list: &mut Vec<GivenHandle<'a>>,
    nodes: &Nodes,
    directory: u64,
    entries: &'a [DirectoryEntryPlus],
) -> Result<(), AllocError>
    requires { IsSome (path_of nodes.now directory) }
    ensures { OnOk result (given_pairs list.new.items
        ≡ given_pairs list.old.items ++ flat_map (given_beside nodes.now (place_of nodes.now directory)) entries.now) }
{
    for entry in entries {
        note_beside(list, nodes, directory, entry)?;
    }
    Ok(())
}

/// The handles that a reply gives to a call that would make the object of this number.
fn note_in<'a>(
    list: &mut Vec<GivenHandle<'a>>,
    view: &View<'_>,
    number: u64,
    call: &NfsCall,
    reply: &'a NfsReply,
) -> Result<(), AllocError>
    ensures { OnOk result (given_pairs list.new.items
        ≡ given_pairs list.old.items ++ given_in view.now.binds.now view.now.nodes.now number call.now reply.now) }
{
    match (call, reply) {
        (NfsCall::Lookup(place), NfsReply::Lookup(Answer::Done(success))) => {
            match object_found(view, place) {
                Some(object) => note_one(list, &success.object, object),
                None => Ok(()),
            }
        }
        (NfsCall::Create(call), NfsReply::Create(Answer::Done(success))) => {
            note(
                list,
                &success.object,
                object_created(view, number, &call.place),
            )
        }
        (NfsCall::MkDir(_), NfsReply::MkDir(Answer::Done(success))) => {
            note(list, &success.object, number)
        }
        (NfsCall::SymLink(_), NfsReply::SymLink(Answer::Done(success))) => {
            note(list, &success.object, number)
        }
        (NfsCall::ReadDirPlus(call), NfsReply::ReadDirPlus(Answer::Done(success))) => {
            match directory_of(view, &call.directory) {
                Some(directory) => {
                    note_listed(list, view.nodes, directory, success.entries.as_slice())
                }
                None => Ok(()),
            }
        }
        _ => Ok(()),
    }
}

/// Those of an outcome.
pub(crate) fn given_handles<'a>(
    alloc: Global,
    view: &View<'_>,
    number: u64,
    call: &NfsCall,
    outcome: &'a Outcome,
) -> Result<Vec<GivenHandle<'a>>, AllocError>
    ensures { IfOk result (λ list. given_pairs list.items ≡ given view.now.binds.now view.now.nodes.now number call.now outcome.now) }
{
    let mut list = Vec::new(alloc);
    if let Outcome::Received(reply) = outcome {
        note_in(&mut list, view, number, call, reply)?;
    }
    Ok(list)
}
