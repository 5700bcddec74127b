//! What a successful CREATE makes of a tree (RFC 1813, section 3.3.8).

ghost use Rattle.std.specs.Prelude.{◌≡◌, ◌≤◌, ◌∷◌, ◌++◌, [], Some, None, IfOk, replicate};
ghost use Rattle.nfs3_types.specs.Limits.{file_limit};
ghost use Rattle.tree_nodes.specs.Tree.{Names, entry_of};
ghost use Rattle.tree_nodes.specs.Files.{file_node};
ghost use Rattle.tree_nodes.specs.Place.{node_in};
ghost use Rattle.tree_nodes.specs.declared.node.Content.TheVariants as contents;
ghost use Rattle.file_tree.specs.Planning.{Plans};
ghost use Rattle.file_tree.specs.Made.{first_size, first_verifier, made_by, create_absent, set_size, create_over, create_present, create_change};

use crate::object_change::ObjectChange;
use nfs3_types::{CreateArguments, CreateMode, FILE_LIMIT, FileHandle, Verifier};
use replay_law::StepFault;
use std::alloc::{AllocError, Global};
use tree_answers::tree_handles::{View, directory_of, gives_object, is_plain};
use tree_nodes::{Content, File, Node, Nodes};
use tree_stores::FileBytes;

/// The most nodes of a tree.
pub const NODE_LIMIT: u64 = 4_294_967_295;

/// The size of a file that the call makes.
fn first_size(mode: &CreateMode) -> u64
    ensures { result ≡ first_size mode.now }
{
    match mode {
        CreateMode::Unchecked(attributes) | CreateMode::Guarded(attributes) => attributes
            .size
            .unwrap_or(0),
        CreateMode::Exclusive(_) => 0,
    }
}

/// The verifier that it keeps.
fn first_verifier(mode: &CreateMode) -> Option<Verifier>
    ensures { result ≡ first_verifier mode.now }
{
    match mode {
        CreateMode::Unchecked(_) | CreateMode::Guarded(_) => None,
        CreateMode::Exclusive(verifier) => Some(*verifier),
    }
}

/// Whether a file was made with this verifier.
fn is_made_by(first: &Option<Verifier>, verifier: Verifier) -> bool
    ensures { result ≡ made_by first.now verifier }
{
    match first {
        Some(first) => first.value == verifier.value,
        None => false,
    }
}

/// A file of zeros.
fn new_file(alloc: Global, number: u64, mode: &CreateMode, size: u64) -> Node
    requires { size ≤ file_limit }
    ensures { result ≡ file_node number (replicate size 0) (first_verifier mode.now) }
{
    Node {
        object: number,
        content: Content::File(File {
            bytes: FileBytes::zeros(alloc, size),
            verifier: first_verifier(mode),
        }),
    }
}

/// An absent name is made a file.
fn create_absent<'a>(
    alloc: Global,
    view: &View<'_>,
    number: u64,
    call: &'a CreateArguments,
    handle: &Option<FileHandle>,
    directory: u64,
) -> Result<ObjectChange<'a>, StepFault>
    requires { node_in view.now.nodes.now directory call.now.place.name ≡ None }
    ensures { (e : Names × Node) → entry_of view.now.nodes.now directory ≡ Some e → Plans view.now.nodes.now result
        (create_absent view.now.binds.now view.now.nodes.now number call.now.mode handle.now (e.0 ++ call.now.place.name ∷ [])) }
{
    let size = first_size(&call.mode);
    if view.nodes.node(number).is_none()
        && view.nodes.count() < NODE_LIMIT
        && size <= FILE_LIMIT
        && gives_object(view.binds, handle, number)
    {
        let node = new_file(alloc, number, &call.mode, size);
        let name = call.place.name.as_slice();
        Ok(ObjectChange::Make {
            directory,
            name,
            node,
        })
    } else {
        Err(StepFault::NotAllowed)
    }
}

/// A call sets the size that is given.
pub(crate) fn set_size<'a>(
    nodes: &Nodes,
    object: u64,
    file: &File,
    size: Option<u64>,
) -> Result<ObjectChange<'a>, StepFault>
    ensures { (path : Names) → entry_of nodes.now object ≡ Some (path, record { object = object; content = contents.File file.now })
        → Plans nodes.now result (set_size path object file.now size) }
{
    match size {
        None => Ok(ObjectChange::Keep),
        Some(size) if size <= FILE_LIMIT => Ok(ObjectChange::Resize { object, size }),
        Some(_) => Err(StepFault::NotAllowed),
    }
}

/// A file stands at the name.
fn create_over<'a>(
    nodes: &Nodes,
    mode: &CreateMode,
    object: u64,
    file: &File,
) -> Result<ObjectChange<'a>, StepFault>
    ensures { (path : Names) → entry_of nodes.now object ≡ Some (path, record { object = object; content = contents.File file.now })
        → Plans nodes.now result (create_over mode.now path object file.now) }
{
    match mode {
        CreateMode::Unchecked(attributes) => set_size(nodes, object, file, attributes.size),
        CreateMode::Guarded(_) => Err(StepFault::NotAllowed),
        CreateMode::Exclusive(verifier) => {
            if is_made_by(&file.verifier, *verifier) {
                Ok(ObjectChange::Keep)
            } else {
                Err(StepFault::NotAllowed)
            }
        }
    }
}

/// A node stands at the name.
fn create_present<'a>(
    view: &View<'_>,
    mode: &CreateMode,
    handle: &Option<FileHandle>,
    node: &Node,
) -> Result<ObjectChange<'a>, StepFault>
    ensures { (path : Names) → entry_of view.now.nodes.now node.now.object ≡ Some (path, node.now)
        → Plans view.now.nodes.now result (create_present view.now.binds.now mode.now handle.now path node.now.object node.now.content) }
{
    match &node.content {
        Content::File(file) => {
            if gives_object(view.binds, handle, node.object) {
                create_over(view.nodes, mode, node.object, file)
            } else {
                Err(StepFault::NotAllowed)
            }
        }
        Content::Directory | Content::Link(_) => Err(StepFault::NotAllowed),
    }
}

/// What the call makes of the tree, where it gives this handle.
pub(crate) fn create_change<'a>(
    alloc: Global,
    view: &View<'_>,
    number: u64,
    call: &'a CreateArguments,
    handle: &Option<FileHandle>,
) -> Result<ObjectChange<'a>, StepFault>
    ensures { Plans view.now.nodes.now result (create_change view.now.binds.now view.now.nodes.now number call.now handle.now) }
{
    let Some(directory) = directory_of(view, &call.place.directory) else {
        return Err(StepFault::NotAllowed);
    };
    let name = call.place.name.as_slice();
    if !is_plain(name) {
        return Err(StepFault::NotAllowed);
    }
    match view.nodes.entry(directory, name) {
        None => create_absent(alloc, view, number, call, handle, directory),
        Some(node) => create_present(view, &call.mode, handle, node),
    }
}
