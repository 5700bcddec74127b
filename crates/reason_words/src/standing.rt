//! What stands in the tree of the objects and names that a call asks for.

use crate::changes::{Changed, last_change, push_change};
use crate::handles::{known_path, push_name};
use crate::objects::{push_kind, push_origin};
use crate::scene::{Scene, push_line};
use crate::sizes::push_file_changes;
use history_lines::Text;
use nfs3_types::{DirectoryName, FileHandle, NfsCall};
use std::alloc::AllocError;
use tree_answers::{first_handle, first_place, object_named};
use tree_handles::{View, directory_of, live_entry};
use tree_nodes::{Content, Node, Nodes};

/// Appends what an object is, where it comes from, and which calls wrote its bytes and set its size last.
fn push_node(
    text: &mut Text<'_>,
    scene: &Scene<'_, '_>,
    nodes: &Nodes,
    node: &Node,
) -> Result<(), AllocError> {
    if let Some(path) = known_path(scene, node.object)? {
        text.push_quoted("", path.as_slice())?;
    }
    push_kind(text, nodes, node)?;
    text.push_words(", ")?;
    push_origin(text, scene, node.object)?;
    match &node.content {
        Content::File(file) => {
            push_file_changes(text, scene, node.object, file.bytes.len() as u64)
        }
        _ => Ok(()),
    }
}

/// A line of the object of a handle.
fn push_object(
    lines: &mut Vec<u8>,
    scene: &Scene<'_, '_>,
    nodes: &Nodes,
    handle: &FileHandle,
) -> Result<(), AllocError> {
    let view = View {
        binds: scene.binds,
        nodes,
    };
    let mut text = Text::new(scene.alloc);
    text.push_words("  there ")?;
    match live_entry(&view, handle) {
        Some(node) => push_node(&mut text, scene, nodes, node)?,
        None => {
            text.push_words("nothing has the handle ")?;
            push_name(&mut text, scene, handle.as_slice())?;
        }
    }
    push_line(lines, text)
}

/// Appends a name of a directory, as a path.
fn push_path_below(
    text: &mut Text<'_>,
    scene: &Scene<'_, '_>,
    directory: u64,
    name: &[u8],
) -> Result<(), AllocError> {
    let mut path = match known_path(scene, directory)? {
        Some(path) => path,
        None => Vec::new(scene.alloc),
    };
    if path.as_slice() != b"/".as_slice() {
        path.push(b'/')?;
    }
    path.extend_from_slice(name)?;
    text.push_quoted("", path.as_slice())
}

/// Appends that a name isn't there.
fn push_absent(
    text: &mut Text<'_>,
    scene: &Scene<'_, '_>,
    directory: u64,
    name: &[u8],
) -> Result<(), AllocError> {
    if name.is_empty() {
        return text.push_words("nothing has an empty name");
    }
    text.push_words("nothing is ")?;
    push_path_below(text, scene, directory, name)
}

/// A line of a name in a directory.
fn push_entry(
    lines: &mut Vec<u8>,
    scene: &Scene<'_, '_>,
    nodes: &Nodes,
    directory: u64,
    name: &[u8],
) -> Result<(), AllocError> {
    let mut text = Text::new(scene.alloc);
    text.push_words("  there ")?;
    let object = object_named(nodes, directory, name);
    match object.and_then(|object| nodes.node(object)) {
        Some(node) => push_node(&mut text, scene, nodes, node)?,
        None => push_absent(&mut text, scene, directory, name)?,
    }
    let change = last_change(scene, Changed::Name(directory, name))?;
    push_change(&mut text, ", the name changed last by call ", change)?;
    push_line(lines, text)
}

/// A line of a place that a call names: of the name, or of the handle where that is no directory's.
fn push_place(
    lines: &mut Vec<u8>,
    scene: &Scene<'_, '_>,
    nodes: &Nodes,
    place: &DirectoryName,
) -> Result<(), AllocError> {
    let view = View {
        binds: scene.binds,
        nodes,
    };
    match directory_of(&view, &place.directory) {
        Some(directory) => push_entry(lines, scene, nodes, directory, place.name.as_slice()),
        None => push_object(lines, scene, nodes, &place.directory),
    }
}

/// Lines of what a call asks for, as the tree has it.
pub(crate) fn push_standing(
    lines: &mut Vec<u8>,
    scene: &Scene<'_, '_>,
    nodes: &Nodes,
    call: &NfsCall,
) -> Result<(), AllocError> {
    match first_place(call) {
        Some(place) => push_place(lines, scene, nodes, place)?,
        None => push_object(lines, scene, nodes, first_handle(call))?,
    }
    match call {
        NfsCall::Rename(call) => push_place(lines, scene, nodes, &call.to),
        _ => Ok(()),
    }
}
