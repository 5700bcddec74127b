//! What a successful SETATTR, MKDIR, SYMLINK, REMOVE or RMDIR makes of a tree (RFC 1813, section 3.3).

ghost use Rattle.file_tree.specs.Planning.{Plans};
ghost use Rattle.file_tree.specs.Made.{make_entry, make_directory, make_link};
ghost use Rattle.file_tree.specs.Written.{set_attributes};
ghost use Rattle.file_tree.specs.Removed.{remove_entry, remove_directory};

use crate::create::{NODE_LIMIT, set_size};
use crate::object_change::ObjectChange;
use nfs3_types::{DirectoryName, FileHandle, MkDirArguments, SetAttrArguments, SymLinkArguments};
use replay_law::StepFault;
use std::alloc::Global;
use tree_answers::tree_handles::{
    View, directory_of, file_of, gives_object, is_directory, is_plain, live_entry, named,
};
use tree_nodes::{Bytes, Content, Node};

/// What a SETATTR makes of the tree.
pub(crate) fn set_attributes<'a>(
    view: &View<'_>,
    call: &SetAttrArguments,
) -> Result<ObjectChange<'a>, StepFault>
    ensures { Plans view.now.nodes.now result (set_attributes view.now.binds.now view.now.nodes.now call.now) }
{
    if call.attributes.size.is_some() {
        let Some(entry) = file_of(view, &call.object) else {
            return Err(StepFault::NotAllowed);
        };
        set_size(view.nodes, entry.object, entry.file, call.attributes.size)
    } else if live_entry(view, &call.object).is_some() {
        Ok(ObjectChange::Keep)
    } else {
        Err(StepFault::NotAllowed)
    }
}

/// A name that is absent gets this node.
fn make_entry<'a>(
    view: &View<'_>,
    number: u64,
    place: &'a DirectoryName,
    handle: &Option<FileHandle>,
    content: Content,
) -> Result<ObjectChange<'a>, StepFault>
    ensures { Plans view.now.nodes.now result (make_entry view.now.binds.now view.now.nodes.now number place.now handle.now content) }
{
    let Some(directory) = directory_of(view, &place.directory) else {
        return Err(StepFault::NotAllowed);
    };
    let name = place.name.as_slice();
    if is_plain(name)
        && view.nodes.entry(directory, name).is_none()
        && view.nodes.node(number).is_none()
        && view.nodes.count() < NODE_LIMIT
        && gives_object(view.binds, handle, number)
    {
        let node = Node {
            object: number,
            content,
        };
        Ok(ObjectChange::Make {
            directory,
            name,
            node,
        })
    } else {
        Err(StepFault::NotAllowed)
    }
}

/// What a MKDIR makes of it, where it gives this handle.
pub(crate) fn make_directory<'a>(
    view: &View<'_>,
    number: u64,
    call: &'a MkDirArguments,
    handle: &Option<FileHandle>,
) -> Result<ObjectChange<'a>, StepFault>
    ensures { Plans view.now.nodes.now result (make_directory view.now.binds.now view.now.nodes.now number call.now handle.now) }
{
    make_entry(view, number, &call.place, handle, Content::Directory)
}

/// What a SYMLINK makes of it, where it gives this handle.
pub(crate) fn make_link<'a>(
    alloc: Global,
    view: &View<'_>,
    number: u64,
    call: &'a SymLinkArguments,
    handle: &Option<FileHandle>,
) -> Result<ObjectChange<'a>, StepFault>
    ensures { Plans view.now.nodes.now result (make_link view.now.binds.now view.now.nodes.now number call.now handle.now) }
{
    let target = Bytes::from_slice(alloc, call.target.as_slice())?;
    make_entry(view, number, &call.place, handle, Content::Link(target))
}

/// What a REMOVE makes of it.
pub(crate) fn remove_entry<'a>(
    view: &View<'_>,
    place: &DirectoryName,
) -> Result<ObjectChange<'a>, StepFault>
    ensures { Plans view.now.nodes.now result (remove_entry view.now.binds.now view.now.nodes.now place.now) }
{
    let Some(node) = named(view, place) else {
        return Err(StepFault::NotAllowed);
    };
    let object = node.object;
    if !is_directory(&node.content) && view.nodes.is_bare(object) {
        Ok(ObjectChange::Remove { object })
    } else {
        Err(StepFault::NotAllowed)
    }
}

/// What an RMDIR makes of it.
pub(crate) fn remove_directory<'a>(
    view: &View<'_>,
    place: &DirectoryName,
) -> Result<ObjectChange<'a>, StepFault>
    ensures { Plans view.now.nodes.now result (remove_directory view.now.binds.now view.now.nodes.now place.now) }
{
    let Some(node) = named(view, place) else {
        return Err(StepFault::NotAllowed);
    };
    let object = node.object;
    if is_directory(&node.content) && view.nodes.is_bare(object) {
        Ok(ObjectChange::Remove { object })
    } else {
        Err(StepFault::NotAllowed)
    }
}
