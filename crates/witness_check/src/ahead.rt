//! A look at what steps read first, ahead of them all. A step reads one thing behind the other, each at the place that the one before
//! tells, and waits for memory each time. Looks at many steps wait at once.

use crate::run::Found;
use file_tree::tree_answers::first_handle;
use nfs3_types::{FileHandle, NfsCall};
use std::alloc::AllocError;
use tree_handles::Binds;
use tree_nodes::{Content, Nodes};

/// How many steps are looked at ahead of the first of them. What was read of their messages stays near the processor meanwhile.
pub(crate) const BLOCK: usize = 32;

/// Notes the object that a handle names.
fn note(binds: &Binds, handle: &FileHandle, seen: &mut Vec<u64>) -> Result<(), AllocError> {
    seen.push(binds.object(handle.as_slice()).unwrap_or(0))?;
    Ok(())
}

/// A number that depends on what an object is, and on whether there are names in it.
fn look_at(nodes: &Nodes, object: u64) -> u64 {
    let Some(node) = nodes.node(object) else {
        return 0;
    };
    match &node.content {
        Content::Directory => nodes.is_bare(object) as u64,
        Content::File(file) => file.bytes.len(),
        Content::Link(_) => 1,
    }
}

/// Looks at the objects of these steps' first handles, and of the second one of a RENAME. Their numbers stand in `seen` behind it, and
/// then one that depends on all that was seen, so that a compiler can't leave a look out.
pub(crate) fn look_ahead(
    nodes: &Nodes,
    binds: &Binds,
    steps: &[Option<Found>],
    seen: &mut Vec<u64>,
) -> Result<(), AllocError> {
    seen.clear();
    for found in steps.iter().flatten() {
        note(binds, first_handle(&found.call), seen)?;
        if let NfsCall::Rename(call) = &found.call {
            note(binds, &call.to.directory, seen)?;
        }
    }
    let mut all: u64 = 0;
    for object in seen.iter() {
        all = all.wrapping_add(look_at(nodes, *object));
    }
    seen.push(all)?;
    Ok(())
}
