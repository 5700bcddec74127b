//! The objects of a tree.

use crate::node::{Content, File};
use crate::table::ObjectTable;
use std::alloc::{AllocError, Global};
use tree_nodes::Nodes;
use tree_stores::Names;

/// The number of the root directory's object.
const ROOT: u64 = 0;

/// A copy of a file.
fn copy_of_file(alloc: Global, file: &tree_nodes::File) -> Result<File, AllocError> {
    let mut bytes = Vec::with_capacity(alloc, file.bytes.len() as usize)?;
    file.bytes.put(&mut bytes)?;
    Ok(File {
        bytes,
        verifier: file.verifier.as_ref().map(|verifier| verifier.value),
    })
}

/// A copy of what an object holds; a directory's names aren't in it yet.
fn copy_of(alloc: Global, content: &tree_nodes::Content) -> Result<Content, AllocError> {
    match content {
        tree_nodes::Content::Directory => Ok(Content::Directory(Names::new(alloc))),
        tree_nodes::Content::File(file) => Ok(Content::File(copy_of_file(alloc, file)?)),
        tree_nodes::Content::Link(text) => {
            Ok(Content::Link(Vec::from_slice(alloc, text.as_slice())?))
        }
    }
}

/// Puts an object of a tree into the table, in its directory, which is there already. Tells whether it is a directory itself.
fn put_object(
    alloc: Global,
    table: &mut ObjectTable,
    content: &tree_nodes::Content,
    directory: u64,
    name: &[u8],
    object: u64,
) -> Result<bool, AllocError> {
    let content = copy_of(alloc, content)?;
    let is_directory = content.is_directory();
    table.insert(object, content)?;
    table.enter(directory, name, object)?;
    if is_directory {
        table.put_parent(object, directory)?;
    }
    Ok(is_directory)
}

/// Puts what a directory has in it into the table. The directories among it go onto `directories`.
fn put_entries(
    alloc: Global,
    table: &mut ObjectTable,
    nodes: &Nodes,
    directory: u64,
    directories: &mut Vec<u64>,
) -> Result<(), AllocError> {
    let Some(names) = nodes.names(directory) else {
        return Ok(());
    };
    for (name, object) in names {
        let Some(node) = nodes.node(object) else {
            continue;
        };
        if put_object(alloc, table, &node.content, directory, name, object)? {
            directories.push(object)?;
        }
    }
    Ok(())
}

/// The objects of a tree, from the root down, each with a copy of what it holds.
pub fn objects_of(alloc: Global, nodes: &Nodes) -> Result<ObjectTable, AllocError> {
    let mut table = ObjectTable::new(alloc)?;
    let mut directories = Vec::new(alloc);
    directories.push(ROOT)?;
    for _ in 0..nodes.count() {
        let Some(directory) = directories.pop() else {
            break;
        };
        put_entries(alloc, &mut table, nodes, directory, &mut directories)?;
    }
    Ok(table)
}
