//! Paths of objects.

use std::alloc::{AllocError, Global};
use tree_nodes::Nodes;

/// How many bytes of a path are told, and one name more.
const MOST_BYTES: usize = 400;

/// The object of the root directory.
pub(crate) const ROOT: u64 = 0;

/// The name of an object in a directory.
fn name_in(nodes: &Nodes, directory: u64, object: u64) -> Option<&[u8]> {
    for (name, found) in nodes.names(directory)? {
        if found == object {
            return Some(name);
        }
    }
    None
}

/// The path that leads through these names, the last one first; behind two dots, if it doesn't begin at the root.
fn joined(alloc: Global, names: &[&[u8]], is_whole: bool) -> Result<Vec<u8>, AllocError> {
    let mut path = Vec::new(alloc);
    if !is_whole {
        path.extend_from_slice(b"..")?;
    }
    for name in names.iter().rev() {
        path.push(b'/')?;
        path.extend_from_slice(*name)?;
    }
    if path.is_empty() {
        path.push(b'/')?;
    }
    Ok(path)
}

/// The path of an object from the root, where it has one: its end, if it is a long one.
pub(crate) fn path_of(
    alloc: Global,
    nodes: &Nodes,
    object: u64,
) -> Result<Option<Vec<u8>>, AllocError> {
    let mut names = Vec::new(alloc);
    let mut at = object;
    let mut bytes: usize = 0;
    for _ in 0..nodes.count() {
        if at == ROOT {
            return Ok(Some(joined(alloc, names.as_slice(), true)?));
        }
        if bytes > MOST_BYTES {
            return Ok(Some(joined(alloc, names.as_slice(), false)?));
        }
        let Some(directory) = nodes.parent(at) else {
            return Ok(None);
        };
        let Some(name) = name_in(nodes, directory, at) else {
            return Ok(None);
        };
        names.push(name)?;
        bytes = bytes.saturating_add(name.len()).saturating_add(1);
        at = directory;
    }
    Ok(None)
}
