//! An object that a server held at first.

ghost use Rattle.std.specs.Prelude.{◌≡◌, IfOk};
ghost use Rattle.tree_starts.specs.Seen.{seen_object, seen_node, IsHeld, IsNodeHeld};

use crate::seen::{SeenNode, SeenObject};
use nfs3_types::{Data, LinkText, Name};
use std::alloc::{AllocError, Global};

/// The most objects of a start.
pub const START_LIMIT: usize = 1_000_000;

/// The most bytes of a name or of a link's text.
pub const TEXT_LIMIT: usize = 1_048_576;

/// What an object is.
#[derive(Drop)]
pub enum StartNode {
    /// A regular file with these bytes, at most 16,777,216.
    File(Data),
    /// A directory.
    Directory,
    /// A symbolic link with this text.
    Link(LinkText),
}

/// An object that stood at first. Object k of a start, from 1 on, has the number k.
#[derive(Drop)]
pub struct StartObject {
    /// The number of the directory that it lies in: 0 for the root, or that of a directory before it.
    pub parent: u64,
    /// Its name there.
    pub name: Name,
    /// What it is.
    pub node: StartNode,
}

impl StartNode {
    /// The same, with its bytes lent.
    pub fn as_seen(&self) -> SeenNode<'_>
        ensures { seen_node result ≡ self.now }
    {
        match self {
            StartNode::File(bytes) => SeenNode::File(bytes.as_slice()),
            StartNode::Directory => SeenNode::Directory,
            StartNode::Link(text) => SeenNode::Link(text.as_slice()),
        }
    }

    /// The same, with a copy of its bytes.
    pub fn from_seen(alloc: Global, seen: &SeenNode<'_>) -> Result<StartNode, AllocError>
        requires { IsNodeHeld (seen_node seen.now) }
        ensures { IfOk result (λ node. node ≡ seen_node seen.now) }
    {
        match seen {
            SeenNode::File(bytes) => Ok(StartNode::File(Data::from_slice(alloc, *bytes)?)),
            SeenNode::Directory => Ok(StartNode::Directory),
            SeenNode::Link(text) => Ok(StartNode::Link(LinkText::from_slice(alloc, *text)?)),
        }
    }
}

impl StartObject {
    /// The same, with its name and bytes lent.
    pub fn as_seen(&self) -> SeenObject<'_>
        ensures { seen_object result ≡ self.now }
    {
        SeenObject {
            parent: self.parent,
            name: self.name.as_slice(),
            node: self.node.as_seen(),
        }
    }

    /// The same, with a copy of its name and bytes.
    pub fn from_seen(alloc: Global, seen: &SeenObject<'_>) -> Result<StartObject, AllocError>
        requires { IsHeld (seen_object seen.now) }
        ensures { IfOk result (λ object. object ≡ seen_object seen.now) }
    {
        let name = Name::from_slice(alloc, seen.name)?;
        let node = StartNode::from_seen(alloc, &seen.node)?;
        Ok(StartObject {
            parent: seen.parent,
            name,
            node,
        })
    }
}
