//! What a handle names in a tree.

ghost use Rattle.std.specs.Prelude.{◌≡◌, ℕ, is_some, option_and_then};
ghost use Rattle.tree_nodes.specs.declared.node.File.{File};
ghost use Rattle.std.specs.Option.{option_copied, option_map};
ghost use Rattle.tree_nodes.specs.declared.node.Node.{Node};
ghost use Rattle.tree_nodes.specs.declared.node.Content.TheVariants as contents;
ghost use Rattle.tree_nodes.specs.Tree.{Names, entry_of};
ghost use Rattle.tree_nodes.specs.Place.{path_of};
ghost use Rattle.tree_handles.specs.Live.{live_entry, directory_of, file_of};
ghost use Rattle.tree_handles.specs.Binding.{is_bound, gives_object};

use crate::binds::Binds;
use nfs3_types::FileHandle;
use tree_nodes::{Content, File, Node, Nodes};

/// What a call sees: the tree, and what its handles name.
#[derive(Clone, Copy)]
pub struct View<'a> {
    /// Which object each handle names.
    pub binds: &'a Binds,
    /// The nodes of the tree.
    pub nodes: &'a Nodes,
}

/// A file with its object.
#[derive(Clone, Copy)]
pub struct FileEntry<'a> {
    /// The object's number.
    pub object: u64,
    /// Its bytes, and the verifier of the exclusive CREATE that made it.
    pub file: &'a File,
}

/// The object that a handle names, where it stands.
pub fn live_entry<'a>(view: &View<'a>, handle: &FileHandle) -> Option<&'a Node>
    ensures node { option_copied result ≡ option_map (λ e. e.1) (live_entry view.now.binds.now view.now.nodes.now handle.now) }
    ensures place { option_and_then (λ n. entry_of view.now.nodes.now n.object) (option_copied result)
        ≡ live_entry view.now.binds.now view.now.nodes.now handle.now }
{
    let object = view.binds.object(handle.as_slice())?;
    view.nodes.node(object)
}

/// The object of the directory that a handle names.
pub fn directory_of(view: &View<'_>, handle: &FileHandle) -> Option<u64>
    ensures path { option_and_then (path_of view.now.nodes.now) result ≡ directory_of view.now.binds.now view.now.nodes.now handle.now }
    ensures stands { is_some result ≡ is_some (directory_of view.now.binds.now view.now.nodes.now handle.now) }
{
    let node = live_entry(view, handle)?;
    match node.content {
        Content::Directory => Some(node.object),
        Content::File(_) | Content::Link(_) => None,
    }
}

/// The file that a handle names.
pub fn file_of<'a>(view: &View<'a>, handle: &FileHandle) -> Option<FileEntry<'a>>
    ensures file { option_map {U = ℕ × File} (λ e. (e.object, e.file.now)) result
        ≡ option_map {U = ℕ × File} (λ e. (e.object, e.file)) (file_of view.now.binds.now view.now.nodes.now handle.now) }
    ensures place { option_and_then (λ e. entry_of view.now.nodes.now e.object) result
        ≡ option_map {U = Names × Node} (λ e. (e.path, record { object = e.object; content = contents.File e.file })) (file_of view.now.binds.now view.now.nodes.now handle.now) }
{
    let node = live_entry(view, handle)?;
    match &node.content {
        Content::File(file) => Some(FileEntry {
            object: node.object,
            file,
        }),
        Content::Directory | Content::Link(_) => None,
    }
}

/// Whether a handle names this object.
pub fn is_bound(binds: &Binds, handle: &FileHandle, object: u64) -> bool
    ensures { result ≡ is_bound binds.now handle.now object }
{
    match binds.object(handle.as_slice()) {
        Some(named) => named == object,
        None => false,
    }
}

/// Whether a reply that gives this handle, if any, gives one of this object.
pub fn gives_object(binds: &Binds, handle: &Option<FileHandle>, object: u64) -> bool
    ensures { result ≡ gives_object binds.now handle.now object }
{
    match handle {
        Some(handle) => is_bound(binds, handle, object),
        None => true,
    }
}
