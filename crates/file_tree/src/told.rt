//! What attributes can tell of the objects of a tree, before a change and after it.

ghost use Rattle.std.specs.Prelude.{◌≡◌, ◌≤◌, ◌+◌, ◌==◌, ◌++◌, ◌∷◌, [], ℕ, max, false, Some};
ghost use Rattle.std.specs.Option.{option_copied, option_map_or};
ghost use Rattle.std.specs.FinMap as map;
ghost use Rattle.nfs3_types.specs.Limits.{file_limit};
ghost use Rattle.nfs3_types.specs.Numbers.{type_number};
ghost use Rattle.nfs3_types.specs.declared.attributes.FileType.TheVariants as types;
ghost use Rattle.tree_nodes.specs.Numbered.{IsNumbered};
ghost use Rattle.tree_nodes.specs.Tree.{Names, entry_of};
ghost use Rattle.tree_nodes.specs.declared.node.Node.{Node};
ghost use Rattle.file_tree.specs.Change.{Change};
ghost use Rattle.file_tree.specs.Planning.{Does};
ghost use Rattle.file_tree.specs.Strict.{told, told_of, told_at};
ghost use Rattle.file_tree.specs.Success.{changed};

use crate::object_change::ObjectChange;
use nfs3_types::{DirectoryName, FileType};
use tree_answers::object_named;
use tree_answers::tree_handles::{View, directory_of};
use tree_nodes::{Content, Nodes};

/// The number of an object's type, and of a file its length.
pub(crate) fn told(content: &Content) -> (u32, Option<u64>)
    ensures { result ≡ told content.now }
{
    match content {
        Content::Directory => (FileType::Directory.number(), None),
        Content::File(file) => (FileType::Regular.number(), Some(file.bytes.len())),
        Content::Link(_) => (FileType::SymbolicLink.number(), None),
    }
}

/// The same of an object, where it stands.
pub(crate) fn told_of(nodes: &Nodes, object: u64) -> Option<(u32, Option<u64>)>
    ensures { result ≡ told_of nodes.now object }
{
    match nodes.node(object) {
        Some(node) => Some(told(&node.content)),
        None => None,
    }
}

/// The same of the object that a name leads to.
pub(crate) fn told_at(view: &View<'_>, place: &DirectoryName) -> Option<(u32, Option<u64>)>
    ensures { result ≡ told_at view.now.binds.now view.now.nodes.now place.now }
{
    let Some(directory) = directory_of(view, &place.directory) else {
        return None;
    };
    match object_named(view.nodes, directory, place.name.as_slice()) {
        Some(object) => told_of(view.nodes, object),
        None => None,
    }
}

/// Whether an object has a name in a directory.
fn has_name(nodes: &Nodes, directory: u64, name: &[u8], object: u64) -> bool
    ensures { (e : Names × Node) → entry_of nodes.now directory ≡ Some e
        → result ≡ option_map_or (λ n. n.object == object) (map.get nodes.now (e.0 ++ name.now ∷ [])) false }
{
    match nodes.object(directory, name) {
        Some(named) => named == object,
        None => false,
    }
}

/// What is told of a file once bytes are written to it.
fn told_written(stood: Option<(u32, Option<u64>)>, offset: u64, count: usize) -> (u32, Option<u64>)
    ensures { (size : ℕ) → stood ≡ Some (type_number types.Regular, Some size) → offset + count ≤ file_limit
        → result ≡ (type_number types.Regular, Some (max size (offset + count))) }
{
    let length = match stood {
        Some((_, Some(length))) => length,
        _ => 0,
    };
    let end = offset.saturating_add(count as u64);
    (FileType::Regular.number(), Some(length.max(end)))
}

/// What is told of an object after a change, which isn't carried out yet.
pub(crate) fn told_after(
    nodes: &Nodes,
    plan: &ObjectChange<'_>,
    object: u64,
) -> Option<(u32, Option<u64>)>
    requires { IsNumbered nodes.now }
    ensures { (change : Change) → Does nodes.now plan.now change → result ≡ told_of (changed nodes.now change) object }
{
    let stood = told_of(nodes, object);
    match plan {
        ObjectChange::Keep => stood,
        ObjectChange::Make { node, .. } => {
            let made = Some(told(&node.content));
            if node.object == object { made } else { stood }
        }
        ObjectChange::Write {
            object: file,
            offset,
            bytes,
        } => {
            let filled = Some(told_written(stood, *offset, bytes.len()));
            if *file == object { filled } else { stood }
        }
        ObjectChange::Resize { object: file, size } => {
            let sized = Some((FileType::Regular.number(), Some(*size)));
            if *file == object { sized } else { stood }
        }
        ObjectChange::Remove { object: gone } => { if *gone == object { None } else { stood } }
        ObjectChange::Rename {
            directory,
            name,
            ..
        } => {
            let is_over = has_name(nodes, *directory, name, object);
            if is_over { None } else { stood }
        }
    }
}
