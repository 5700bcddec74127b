//! Where a call that leaves the tree may succeed with these results: GETATTR, LOOKUP, READLINK and COMMIT.

ghost use Rattle.std.specs.Prelude.{◌≡◌, option_and_then};
ghost use Rattle.std.specs.Option.{option_copied};
ghost use Rattle.tree_handles.specs.tree_nodes_specs.Place.{path_of};
ghost use Rattle.tree_handles.specs.Entry.{entry_at};
ghost use Rattle.tree_answers.specs.Look.{shows, getattr_is_legal, object_at, object_named, lookup_is_legal, has_text, readlink_is_legal, commit_is_legal};

use nfs3_types::{Answer, DirectoryName, FileAttributes, FileHandle, FileType, NfsReply};
use tree_handles::tree_nodes::{Content, Node, Nodes};
use tree_handles::{
    View, directory_of, file_of, is_bound, is_dot, is_plain, is_two_dots, live_entry,
};

/// Whether attributes are those of such an object, as far as the tree has it.
fn shows(content: &Content, attributes: &FileAttributes) -> bool
    ensures { result ≡ shows content.now attributes.now }
{
    match content {
        Content::Directory => attributes.file_type == FileType::Directory,
        Content::File(file) => {
            attributes.file_type == FileType::Regular && attributes.size == file.bytes.len()
        }
        Content::Link(_) => attributes.file_type == FileType::SymbolicLink,
    }
}

/// A GETATTR succeeds with the object's attributes.
pub fn getattr_is_legal(view: &View<'_>, object: &FileHandle, reply: &NfsReply) -> bool
    ensures { result ≡ getattr_is_legal view.now.binds.now view.now.nodes.now object.now reply.now }
{
    match reply {
        NfsReply::GetAttr(Answer::Done(attributes)) => {
            match live_entry(view, object) {
                Some(node) => shows(&node.content, attributes),
                None => false,
            }
        }
        _ => false,
    }
}

/// The object of a node.
fn object_at(node: Option<&Node>) -> Option<u64>
    ensures { result ≡ object_at (option_copied node.entry) }
{
    match node {
        Some(node) => Some(node.object),
        None => None,
    }
}

/// The object of an entry of a directory. It doesn't go to the object itself.
fn entry_object(nodes: &Nodes, directory: u64, name: &[u8]) -> Option<u64>
    ensures { result ≡ option_and_then (λ path. object_at (entry_at nodes.now path name.now)) (path_of nodes.now directory) }
{
    if is_plain(name) {
        nodes.object(directory, name)
    } else {
        None
    }
}

/// The object that a name leads to from a directory: `.` is the directory itself, `..` the one that it lies in.
pub fn object_named(nodes: &Nodes, directory: u64, name: &[u8]) -> Option<u64>
    ensures { result ≡ option_and_then (λ path. object_named nodes.now path name.now) (path_of nodes.now directory) }
{
    if is_dot(name) {
        return object_at(nodes.node(directory));
    }
    if is_two_dots(name) {
        return nodes.parent(directory);
    }
    entry_object(nodes, directory, name)
}

/// A LOOKUP succeeds with a handle of the object.
pub fn lookup_is_legal(view: &View<'_>, place: &DirectoryName, reply: &NfsReply) -> bool
    ensures { result ≡ lookup_is_legal view.now.binds.now view.now.nodes.now place.now reply.now }
{
    match reply {
        NfsReply::Lookup(Answer::Done(success)) => {
            let Some(directory) = directory_of(view, &place.directory) else {
                return false;
            };
            match object_named(view.nodes, directory, place.name.as_slice()) {
                Some(object) => is_bound(view.binds, &success.object, object),
                None => false,
            }
        }
        _ => false,
    }
}

/// Whether an object is a link of this text.
fn has_text(content: &Content, text: &[u8]) -> bool
    ensures { result ≡ has_text content.now text.now }
{
    match content {
        Content::Directory | Content::File(_) => false,
        Content::Link(target) => target.as_slice() == text,
    }
}

/// A READLINK succeeds with the link's text.
pub fn readlink_is_legal(view: &View<'_>, link: &FileHandle, reply: &NfsReply) -> bool
    ensures { result ≡ readlink_is_legal view.now.binds.now view.now.nodes.now link.now reply.now }
{
    match reply {
        NfsReply::ReadLink(Answer::Done(success)) => {
            match live_entry(view, link) {
                Some(node) => has_text(&node.content, success.target.as_slice()),
                None => false,
            }
        }
        _ => false,
    }
}

/// A COMMIT succeeds at a file.
pub fn commit_is_legal(view: &View<'_>, file: &FileHandle, reply: &NfsReply) -> bool
    ensures { result ≡ commit_is_legal view.now.binds.now view.now.nodes.now file.now reply.now }
{
    match reply {
        NfsReply::Commit(Answer::Done(_)) => file_of(view, file).is_some(),
        _ => false,
    }
}
