//! How handles are called: by the path of their object, or by their last bytes; one that isn't bound by all of them.

use crate::objects::{push_fate, push_origin};
use crate::paths::{ROOT, path_of};
use crate::scene::Scene;
use history_lines::Text;
use nfs3_types::{Answer, FileHandle, NfsCall, NfsReply};
use std::alloc::AllocError;
use tree_answers::{first_handle, second_handle};

/// How many bytes of a handle are shown at least.
const FEWEST: usize = 4;

/// How many handles of a list have names at most: each costs a walk over a directory.
const MOST_NAMED: usize = 10;

/// How many last bytes a handle has in common with another one.
fn common_end(handle: &[u8], other: &[u8]) -> usize {
    let pairs = handle.iter().rev().zip(other.iter().rev());
    pairs.take_while(|(one, two)| *one == *two).count()
}

/// How many last bytes tell a bound handle from the root's and from all that are bound.
fn telling_end(scene: &Scene<'_, '_>, handle: &[u8]) -> usize {
    let mut most = common_end(handle, scene.history.root().as_slice());
    for bind in scene.certificate.binds.as_slice() {
        let other = bind.handle.as_slice();
        if other != handle {
            most = most.max(common_end(handle, other));
        }
    }
    most.saturating_add(1).max(FEWEST)
}

/// Appends the last bytes of a bound handle: as many as tell it from the others.
fn push_end(text: &mut Text<'_>, scene: &Scene<'_, '_>, handle: &[u8]) -> Result<(), AllocError> {
    let count = telling_end(scene, handle);
    match handle.len().checked_sub(count) {
        Some(ahead) if ahead > 0 => {
            let (_, end) = handle.split_at(ahead);
            text.push_words("..")?;
            text.push_hex(end)
        }
        _ => text.push_handle("", handle),
    }
}

/// The path of an object, where it is known.
pub(crate) fn known_path(
    scene: &Scene<'_, '_>,
    object: u64,
) -> Result<Option<Vec<u8>>, AllocError> {
    if object == ROOT {
        return Ok(Some(Vec::from_slice(scene.alloc, b"/")?));
    }
    match scene.nodes {
        Some(nodes) => path_of(scene.alloc, nodes, object),
        None => Ok(None),
    }
}

/// Appends what a handle of an object without a path is called.
fn push_without_path(
    text: &mut Text<'_>,
    scene: &Scene<'_, '_>,
    handle: &[u8],
    object: u64,
) -> Result<(), AllocError> {
    push_end(text, scene, handle)?;
    text.push_words(" (")?;
    match scene.nodes {
        Some(_) => push_fate(text, scene, object)?,
        None => push_origin(text, scene, object)?,
    }
    text.push_words(")")
}

/// Appends what a handle is called.
pub(crate) fn push_name(
    text: &mut Text<'_>,
    scene: &Scene<'_, '_>,
    handle: &[u8],
) -> Result<(), AllocError> {
    let Some(object) = scene.binds.object(handle) else {
        text.push_handle("", handle)?;
        if scene.nodes.is_some() {
            return text.push_words(" (of no object)");
        }
        return Ok(());
    };
    match known_path(scene, object)? {
        Some(path) => text.push_quoted("", path.as_slice()),
        None => push_without_path(text, scene, handle, object),
    }
}

/// Lets a handle have its name in a text.
fn name(text: &mut Text<'_>, scene: &Scene<'_, '_>, handle: &FileHandle) -> Result<(), AllocError> {
    let bytes = handle.as_slice();
    let mut called = Text::new(scene.alloc);
    push_name(&mut called, scene, bytes)?;
    text.name_handle(Vec::from_slice(scene.alloc, bytes)?, called)
}

/// The same of a handle that may be left out.
fn name_any(
    text: &mut Text<'_>,
    scene: &Scene<'_, '_>,
    handle: &Option<FileHandle>,
) -> Result<(), AllocError> {
    match handle {
        Some(handle) => name(text, scene, handle),
        None => Ok(()),
    }
}

/// Lets the handles of a call have their names in a text.
pub(crate) fn name_those_of_call(
    text: &mut Text<'_>,
    scene: &Scene<'_, '_>,
    call: &NfsCall,
) -> Result<(), AllocError> {
    name(text, scene, first_handle(call))?;
    match second_handle(call) {
        Some(handle) => name(text, scene, handle),
        None => Ok(()),
    }
}

/// Lets the handles of a reply have their names in a text.
pub(crate) fn name_those_of_reply(
    text: &mut Text<'_>,
    scene: &Scene<'_, '_>,
    reply: &NfsReply,
) -> Result<(), AllocError> {
    match reply {
        NfsReply::Lookup(Answer::Done(success)) => name(text, scene, &success.object),
        NfsReply::Create(Answer::Done(success))
        | NfsReply::MkDir(Answer::Done(success))
        | NfsReply::SymLink(Answer::Done(success)) => name_any(text, scene, &success.object),
        NfsReply::ReadDirPlus(Answer::Done(success)) => {
            for entry in success.entries.as_slice().iter().take(MOST_NAMED) {
                name_any(text, scene, &entry.object)?;
            }
            Ok(())
        }
        _ => Ok(()),
    }
}
