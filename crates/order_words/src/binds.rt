//! The binds of a plan, and those of handles that a reply gives first.

use crate::plans::copied;
use certificate::{Bind, Certificate};
use cut_check::bindings_of_plan;
use fault_reasons::tree_after;
use nfs_history::KnownCalls;
use nfs3_types::{
    Answer, DirectoryEntryPlus, DirectoryName, FileHandle, NfsCall, NfsReply, Outcome,
};
use std::alloc::{AllocError, Global};
use tree_answers::object_named;
use tree_handles::{Binds, View, directory_of};

/// Binds a handle to an object, where there is one, unless the handle is bound.
fn put_bind(
    binds: &mut Vec<Bind>,
    view: &View<'_>,
    handle: &FileHandle,
    object: Option<u64>,
) -> Result<(), AllocError> {
    let Some(object) = object else {
        return Ok(());
    };
    let bytes = handle.as_slice();
    if bytes.is_empty() || view.binds.object(bytes).is_some() {
        return Ok(());
    }
    let handle = handle.clone()?;
    binds.push(Bind { handle, object })?;
    Ok(())
}

/// The object that a directory has by a name.
fn named(view: &View<'_>, directory: &FileHandle, name: &[u8]) -> Option<u64> {
    let directory = directory_of(view, directory)?;
    object_named(view.nodes, directory, name)
}

/// Binds the handle that a reply gives to what its call made, or found by that name.
fn put_made(
    binds: &mut Vec<Bind>,
    view: &View<'_>,
    place: &DirectoryName,
    handle: &Option<FileHandle>,
    own: u64,
) -> Result<(), AllocError> {
    let Some(handle) = handle else {
        return Ok(());
    };
    let found = named(view, &place.directory, place.name.as_slice());
    put_bind(binds, view, handle, found.or(Some(own)))
}

/// Binds the handles beside the names of a list.
fn put_entries(
    binds: &mut Vec<Bind>,
    view: &View<'_>,
    directory: &FileHandle,
    entries: &[DirectoryEntryPlus],
) -> Result<(), AllocError> {
    for entry in entries {
        if let Some(handle) = &entry.object {
            let object = named(view, directory, entry.name.as_slice());
            put_bind(binds, view, handle, object)?;
        }
    }
    Ok(())
}

/// Binds the handles that a reply gives, to the objects that a tree has by those names; `own` is the object that the call makes.
fn put_given(
    binds: &mut Vec<Bind>,
    view: &View<'_>,
    call: &NfsCall,
    reply: &NfsReply,
    own: u64,
) -> Result<(), AllocError> {
    match (call, reply) {
        (NfsCall::Lookup(place), NfsReply::Lookup(Answer::Done(success))) => {
            let object = named(view, &place.directory, place.name.as_slice());
            put_bind(binds, view, &success.object, object)
        }
        (NfsCall::Create(call), NfsReply::Create(Answer::Done(success))) => {
            put_made(binds, view, &call.place, &success.object, own)
        }
        (NfsCall::MkDir(call), NfsReply::MkDir(Answer::Done(success))) => {
            put_made(binds, view, &call.place, &success.object, own)
        }
        (NfsCall::SymLink(call), NfsReply::SymLink(Answer::Done(success))) => {
            put_made(binds, view, &call.place, &success.object, own)
        }
        (NfsCall::ReadDirPlus(call), NfsReply::ReadDirPlus(Answer::Done(success))) => {
            put_entries(binds, view, &call.directory, success.entries.as_slice())
        }
        _ => Ok(()),
    }
}

/// The same by the tree behind a plan.
fn put_by_tree(
    binds: &mut Vec<Bind>,
    alloc: Global,
    history: &KnownCalls<'_>,
    plan: &Certificate,
    known: &Binds,
    call: &NfsCall,
    reply: &NfsReply,
    own: u64,
) -> Result<(), AllocError> {
    let Some((last, ahead)) = plan.eras.as_slice().split_last() else {
        return Ok(());
    };
    match tree_after(alloc, history, plan, ahead, last.places.as_slice())? {
        Some(tree) => {
            let view = View {
                binds: known,
                nodes: tree.nodes(),
            };
            put_given(binds, &view, call, reply, own)
        }
        None => Ok(()),
    }
}

/// Binds the handles that the reply to a call gives first.
fn put_first(
    binds: &mut Vec<Bind>,
    alloc: Global,
    history: &KnownCalls<'_>,
    plan: &Certificate,
    number: u64,
) -> Result<(), AllocError> {
    let Some(recorded) = history.call(alloc, number)? else {
        return Ok(());
    };
    let Some((call, outcome)) = recorded.into_judged() else {
        return Ok(());
    };
    let known = bindings_of_plan(alloc, &history.lend(), plan)?;
    let own = number.saturating_add(history.start().count() as u64);
    match &outcome {
        Some(Outcome::Received(reply)) => {
            put_by_tree(binds, alloc, history, plan, &known, &call, reply, own)
        }
        _ => Ok(()),
    }
}

/// The binds of a plan, and behind them those of the handles that the reply to a call gives first: of what the tree behind the plan has by those
/// names, or of what the call makes.
pub(crate) fn binds_with(
    alloc: Global,
    history: &KnownCalls<'_>,
    plan: &Certificate,
    call: u64,
) -> Result<Vec<Bind>, AllocError> {
    let mut binds = copied(alloc, plan.binds.as_slice())?;
    put_first(&mut binds, alloc, history, plan, call)?;
    Ok(binds)
}
