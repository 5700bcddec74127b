//! Copies of what the table holds, for trees that share it no more.

ghost use Rattle.std.specs.Prelude.{◌≡◌, IfOk};

use crate::node::{Content, File, Node};
use crate::table::{Body, Entry};
use std::alloc::AllocError;
use tree_stores::Copied;

/// The same file.
fn copy_file(file: &File) -> Result<File, AllocError>
    ensures { IfOk result (λ copy. copy ≡ file.now) }
{
    Ok(File {
        bytes: file.bytes.copy()?,
        verifier: file.verifier,
    })
}

/// The same content.
fn copy_content(content: &Content) -> Result<Content, AllocError>
    ensures { IfOk result (λ copy. copy ≡ content.now) }
{
    match content {
        Content::Directory => Ok(Content::Directory),
        Content::File(file) => Ok(Content::File(copy_file(file)?)),
        Content::Link(text) => Ok(Content::Link(text.copy()?)),
    }
}

/// The same node.
fn copy_node(node: &Node) -> Result<Node, AllocError>
    ensures { IfOk result (λ copy. copy ≡ node.now) }
{
    Ok(Node {
        object: node.object,
        content: copy_content(&node.content)?,
    })
}

impl Copied for Body {
    fn copied(&self) -> Result<Body, AllocError> {
        Ok(Body {
            names: self.names.copy()?,
            node: copy_node(&self.node)?,
            name: self.name.copy()?,
        })
    }
}

impl Copied for Entry {
    fn copied(&self) -> Result<Entry, AllocError> {
        Ok(Entry {
            parent: self.parent,
            body: self.body.copy()?,
        })
    }
}
