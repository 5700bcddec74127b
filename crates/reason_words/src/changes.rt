//! Which call changed something last, of those ahead of a place.

use crate::places::cut_places;
use crate::scene::Scene;
use certificate::Place;
use fault_reasons::{Placed, placed_at};
use history_lines::{Text, procedure_name};
use nfs_history::CallKind;
use nfs3_types::{
    Answer, CreateMode, DirectoryName, FileHandle, NfsCall, NfsReply, Outcome, Procedure,
};
use std::alloc::AllocError;
use tree_answers::{first_place, object_named};

/// What is changed.
#[derive(Clone, Copy)]
pub(crate) enum Changed<'c> {
    /// The bytes of a file.
    Bytes(u64),
    /// A name in a directory.
    Name(u64, &'c [u8]),
}

/// A call that changed something.
#[derive(Clone, Copy)]
pub(crate) struct Change {
    pub(crate) number: u64,
    procedure: Procedure,
}

impl Change {
    /// That of a call at a place.
    pub(crate) fn of(placed: &Placed) -> Change {
        Change {
            number: placed.number,
            procedure: placed.call.procedure(),
        }
    }
}

/// Whether it is this name of that directory.
fn is_at(scene: &Scene<'_, '_>, place: &DirectoryName, directory: u64, name: &[u8]) -> bool {
    place.name.as_slice() == name
        && scene.binds.object(place.directory.as_slice()) == Some(directory)
}

/// Whether a call that succeeds may make a name or take it away.
fn asks_for(scene: &Scene<'_, '_>, call: &NfsCall, directory: u64, name: &[u8]) -> bool {
    if !call.procedure().changes_the_tree() {
        return false;
    }
    if let NfsCall::Rename(call) = call {
        // Onto itself it changes nothing.
        return is_at(scene, &call.to, directory, name) != is_at(scene, &call.from, directory, name);
    }
    match first_place(call) {
        Some(place) => is_at(scene, place, directory, name),
        None => false,
    }
}

/// Whether a name is that of what a call makes.
fn is_own(scene: &Scene<'_, '_>, number: u64, directory: u64, name: &[u8]) -> bool {
    let own = number.saturating_add(scene.history.start().count() as u64);
    match scene.nodes {
        Some(nodes) => object_named(nodes, directory, name) == Some(own),
        None => true,
    }
}

/// Whether a call that succeeds makes a name or takes it away, where none behind it does: a CREATE may find what it is asked for.
fn moves(scene: &Scene<'_, '_>, placed: &Placed, directory: u64, name: &[u8]) -> bool {
    if !asks_for(scene, &placed.call, directory, name) {
        return false;
    }
    match &placed.call {
        NfsCall::Create(_) => is_own(scene, placed.number, directory, name),
        _ => true,
    }
}

/// The handle that a reply gives to what its call made or found.
pub(crate) fn given_handle(outcome: &Outcome) -> Option<&FileHandle> {
    let Outcome::Received(reply) = outcome else {
        return None;
    };
    match reply {
        NfsReply::Create(Answer::Done(success))
        | NfsReply::MkDir(Answer::Done(success))
        | NfsReply::SymLink(Answer::Done(success)) => success.object.as_ref(),
        _ => None,
    }
}

/// The size that a CREATE sets, if it does.
pub(crate) fn size_set(mode: &CreateMode) -> Option<u64> {
    match mode {
        CreateMode::Unchecked(attributes) | CreateMode::Guarded(attributes) => attributes.size,
        CreateMode::Exclusive(_) => None,
    }
}

/// Whether an object has the name of a CREATE in the tree.
fn is_named(scene: &Scene<'_, '_>, place: &DirectoryName, object: u64) -> bool {
    match (scene.nodes, scene.binds.object(place.directory.as_slice())) {
        (Some(nodes), Some(directory)) => {
            object_named(nodes, directory, place.name.as_slice()) == Some(object)
        }
        _ => false,
    }
}

/// Whether a CREATE that came out so made or found a file. Where its reply gives no handle, the name tells.
fn is_of_create(
    scene: &Scene<'_, '_>,
    place: &DirectoryName,
    outcome: &Outcome,
    object: u64,
) -> bool {
    match given_handle(outcome) {
        Some(handle) => scene.binds.object(handle.as_slice()) == Some(object),
        None => is_named(scene, place, object),
    }
}

/// Whether a WRITE that came out so wrote at least one byte.
fn wrote_some(outcome: &Outcome) -> bool {
    match outcome {
        Outcome::Received(NfsReply::Write(Answer::Done(success))) => success.count > 0,
        Outcome::Received(_) => false,
        Outcome::Taken(count) => *count != Some(0),
    }
}

/// Whether a call that succeeds changes the bytes of a file.
fn writes(scene: &Scene<'_, '_>, placed: &Placed, object: u64) -> bool {
    match &placed.call {
        NfsCall::Create(call) => {
            size_set(&call.mode).is_some()
                && is_of_create(scene, &call.place, &placed.outcome, object)
        }
        NfsCall::Write(call) => {
            wrote_some(&placed.outcome) && scene.binds.object(call.file.as_slice()) == Some(object)
        }
        NfsCall::SetAttr(call) => {
            call.attributes.size.is_some()
                && scene.binds.object(call.object.as_slice()) == Some(object)
        }
        _ => false,
    }
}

/// Whether a call that succeeds is one of those that are looked for.
fn changes(scene: &Scene<'_, '_>, placed: &Placed, changed: Changed<'_>) -> bool {
    match changed {
        Changed::Bytes(object) => writes(scene, placed, object),
        Changed::Name(directory, name) => moves(scene, placed, directory, name),
    }
}

/// Whether a call came out so that it changed what it could.
pub(crate) fn is_done(outcome: &Outcome) -> bool {
    match outcome {
        Outcome::Received(reply) => reply.failure().is_none(),
        Outcome::Taken(_) => true,
    }
}

/// Whether calls of a procedure can change something.
fn can_change(procedure: Procedure, changed: Changed<'_>) -> bool {
    match changed {
        Changed::Bytes(_) => matches!(
            procedure,
            Procedure::Write | Procedure::Create | Procedure::SetAttr
        ),
        Changed::Name(_, _) => procedure.changes_the_tree(),
    }
}

/// Whether the call at a place is of a procedure that can change something, and didn't fail: no other is decoded.
fn may_change(scene: &Scene<'_, '_>, place: Place, changed: Changed<'_>) -> bool {
    match scene.history.kind(place.number()) {
        Some(CallKind::Unanswered(procedure) | CallKind::Answered(procedure, None)) => {
            can_change(procedure, changed)
        }
        _ => false,
    }
}

/// The call at a place, where it changed something.
pub(crate) fn changing_at(
    scene: &Scene<'_, '_>,
    place: Place,
    changed: Changed<'_>,
) -> Result<Option<Placed>, AllocError> {
    if !may_change(scene, place, changed) {
        return Ok(None);
    }
    let Some(placed) = placed_at(scene.alloc, scene.history, place)? else {
        return Ok(None);
    };
    if !is_done(&placed.outcome) || !changes(scene, &placed, changed) {
        return Ok(None);
    }
    Ok(Some(placed))
}

/// The last call of these places that changed something.
fn last_in(
    scene: &Scene<'_, '_>,
    places: &[Place],
    changed: Changed<'_>,
) -> Result<Option<Change>, AllocError> {
    for place in places.iter().rev() {
        if let Some(placed) = changing_at(scene, *place, changed)? {
            return Ok(Some(Change::of(&placed)));
        }
    }
    Ok(None)
}

/// The last call ahead of the place that changed something: of its era, else of what the eras ahead kept.
pub(crate) fn last_change(
    scene: &Scene<'_, '_>,
    changed: Changed<'_>,
) -> Result<Option<Change>, AllocError> {
    let found = last_in(scene, scene.front, changed)?;
    if found.is_some() {
        return Ok(found);
    }
    for era in scene.ahead.iter().rev() {
        let (kept, _) = cut_places(era);
        let found = last_in(scene, kept, changed)?;
        if found.is_some() {
            return Ok(found);
        }
    }
    Ok(None)
}

/// Appends words and a call that changed something, where there is one.
pub(crate) fn push_change(
    text: &mut Text<'_>,
    words: &str,
    change: Option<Change>,
) -> Result<(), AllocError> {
    let Some(change) = change else {
        return Ok(());
    };
    text.push_number(words, change.number)?;
    text.push_words(" ")?;
    text.push_words(procedure_name(change.procedure))
}
