//! Calls about one name in a directory.

use crate::change::{Change, NewObject};
use crate::decision::{Decision, Stop};
use crate::scene::{Scene, is_plain};
use nfs3_types::{
    Answer, CreateArguments, CreateMode, CreateSuccess, DirectoryName, Failure, Held,
    LookupSuccess, MkDirArguments, NfsReply, SymLinkArguments, TRANSFER_LIMIT,
};
use object_store::{Content, Node};
use std::alloc::AllocError;

/// The object that a name leads to from a directory. `.` is the directory itself, `..` the one that it lies in.
fn found(scene: &Scene<'_>, place: &DirectoryName) -> Result<u64, Failure> {
    let (directory, names) = scene.directory(&place.directory)?;
    match (place.name.as_slice(), scene.held.parents()) {
        (b".", _) => Ok(directory),
        (b"..", Some(parents)) => Ok(parents.parent(directory)),
        (name, _) => names.get(name).ok_or(Failure::NoEntry),
    }
}

pub(crate) fn look_up<'a>(scene: &Scene<'_>, place: &DirectoryName) -> Result<Decision<'a>, Stop> {
    let object = found(scene, place)?;
    let success = LookupSuccess {
        object: scene.handle(object)?,
        attributes: scene.attributes_after(object, &Change::Nothing)?,
        directory_attributes: scene.attributes(&place.directory)?,
    };
    let success = Held::new(scene.alloc, success)?;
    Ok(Decision::look(NfsReply::Lookup(Answer::Done(success))))
}

/// What stands behind the status of a CREATE, a MKDIR or a SYMLINK that succeeded: the object's handle and attributes, and
/// those of the directory.
fn created(
    scene: &Scene<'_>,
    place: &DirectoryName,
    object: u64,
    change: &Change<'_>,
) -> Result<Held<CreateSuccess>, AllocError> {
    let success = CreateSuccess {
        object: Some(scene.handle(object)?),
        attributes: scene.attributes_after(object, change)?,
        wcc: scene.wcc(&place.directory, change)?,
    };
    Held::new(scene.alloc, success)
}

/// What a CREATE does where the name is there.
fn create_over<'a>(call: &CreateArguments, node: &Node) -> Result<Change<'a>, Failure> {
    let Content::File(file) = &node.content else {
        return Err(Failure::Exists);
    };
    match &call.mode {
        CreateMode::Unchecked(attributes) => {
            match attributes.size {
                Some(size) => Ok(Change::Resize {
                    object: node.number,
                    size,
                }),
                None => Ok(Change::Nothing),
            }
        }
        CreateMode::Exclusive(verifier) if file.verifier == Some(verifier.value) => {
            Ok(Change::Nothing)
        }
        CreateMode::Guarded(_) | CreateMode::Exclusive(_) => Err(Failure::Exists),
    }
}

/// The file that a CREATE makes.
fn new_file<'a>(mode: &CreateMode) -> NewObject<'a> {
    match mode {
        CreateMode::Unchecked(attributes) | CreateMode::Guarded(attributes) => NewObject::File {
            size: attributes.size.unwrap_or(0),
            verifier: None,
        },
        CreateMode::Exclusive(verifier) => NewObject::File {
            size: 0,
            verifier: Some(verifier.value),
        },
    }
}

/// The directory of a name that isn't there, and under which an object can be made.
fn vacant(scene: &Scene<'_>, place: &DirectoryName) -> Result<u64, Failure> {
    let (directory, names) = scene.directory(&place.directory)?;
    let name = place.name.as_slice();
    if names.get(name).is_some() {
        return Err(Failure::Exists);
    }
    if !is_plain(name) {
        return Err(Failure::Invalid);
    }
    Ok(directory)
}

/// What a CREATE does, and to which object.
fn create_change<'a>(
    scene: &Scene<'_>,
    call: &'a CreateArguments,
) -> Result<(u64, Change<'a>), Failure> {
    let (_, names) = scene.directory(&call.place.directory)?;
    let name = call.place.name.as_slice();
    if let Some(node) = scene.entry(names, name) {
        return Ok((node.number, create_over(call, node)?));
    }
    let directory = vacant(scene, &call.place)?;
    let change = Change::Make {
        directory,
        name,
        object: new_file(&call.mode),
    };
    Ok((scene.object, change))
}

pub(crate) fn create<'a>(
    scene: &Scene<'_>,
    call: &'a CreateArguments,
) -> Result<Decision<'a>, Stop> {
    let (object, change) = create_change(scene, call)?;
    let reply = NfsReply::Create(Answer::Done(created(scene, &call.place, object, &change)?));
    Ok(Decision { reply, change })
}

pub(crate) fn make_directory<'a>(
    scene: &Scene<'_>,
    call: &'a MkDirArguments,
) -> Result<Decision<'a>, Stop> {
    let directory = vacant(scene, &call.place)?;
    let change = Change::Make {
        directory,
        name: call.place.name.as_slice(),
        object: NewObject::Directory,
    };
    let success = created(scene, &call.place, scene.object, &change)?;
    let reply = NfsReply::MkDir(Answer::Done(success));
    Ok(Decision { reply, change })
}

pub(crate) fn make_link<'a>(
    scene: &Scene<'_>,
    call: &'a SymLinkArguments,
) -> Result<Decision<'a>, Stop> {
    let text = call.target.as_slice();
    if text.len() > TRANSFER_LIMIT {
        return Err(Stop::Failed(Failure::NameTooLong));
    }
    let directory = vacant(scene, &call.place)?;
    let change = Change::Make {
        directory,
        name: call.place.name.as_slice(),
        object: NewObject::Link(text),
    };
    let success = created(scene, &call.place, scene.object, &change)?;
    let reply = NfsReply::SymLink(Answer::Done(success));
    Ok(Decision { reply, change })
}

/// The directory of a name, and the object that the name leads to.
fn present<'s>(scene: &Scene<'s>, place: &DirectoryName) -> Result<(u64, &'s Node), Failure> {
    let (directory, names) = scene.directory(&place.directory)?;
    let node = scene
        .entry(names, place.name.as_slice())
        .ok_or(Failure::NoEntry)?;
    Ok((directory, node))
}

pub(crate) fn remove<'a>(
    scene: &Scene<'_>,
    place: &'a DirectoryName,
) -> Result<Decision<'a>, Stop> {
    let (directory, node) = present(scene, place)?;
    if node.is_directory() {
        return Err(Stop::Failed(Failure::IsDirectory));
    }
    let change = Change::Remove {
        directory,
        name: place.name.as_slice(),
        object: node.number,
    };
    let wcc = scene.wcc(&place.directory, &change)?;
    Ok(Decision {
        reply: NfsReply::Remove(Answer::Done(wcc)),
        change,
    })
}

pub(crate) fn remove_directory<'a>(
    scene: &Scene<'_>,
    place: &'a DirectoryName,
) -> Result<Decision<'a>, Stop> {
    let (directory, node) = present(scene, place)?;
    let names = node.names().ok_or(Failure::NotDirectory)?;
    if !names.is_empty() {
        return Err(Stop::Failed(Failure::NotEmpty));
    }
    let change = Change::Remove {
        directory,
        name: place.name.as_slice(),
        object: node.number,
    };
    let wcc = scene.wcc(&place.directory, &change)?;
    Ok(Decision {
        reply: NfsReply::RmDir(Answer::Done(wcc)),
        change,
    })
}
