//! The nodes of what stood at first.

ghost use Rattle.std.specs.Prelude.{◌≡◌, ◌≤◌, ◌<◌, ◌^◌, None, IfOk, OnOk, IsSome, length};
ghost use Rattle.std.specs.FinMap as finite;
ghost use Rattle.tree_starts.specs.Seen.{seen_node, seen_object, all_seen};
ghost use Rattle.tree_starts.specs.Start.{IsStart};
ghost use Rattle.tree_nodes.specs.Tree.{entry_of};
ghost use Rattle.tree_nodes.specs.Files.{node_limit};
ghost use Rattle.tree_nodes.specs.Place.{node_in};
ghost use Rattle.file_tree.specs.Built.{Fits};
ghost use Rattle.file_tree.specs.StartTree.{content_of, with_object, start_tree};

use std::alloc::{AllocError, Global};
use tree_nodes::{Bytes, Content, File, Node, Nodes};
use tree_starts::{SeenNode, SeenObject, SeenStart};
use tree_stores::FileBytes;

/// What an object is, with bytes of its own.
fn content_of(alloc: Global, node: &SeenNode<'_>) -> Result<Content, AllocError>
    requires { Fits (seen_node node.now) }
    ensures { IfOk result (λ content. content ≡ content_of (seen_node node.now)) }
{
    match *node {
        SeenNode::File(bytes) => Ok(Content::File(File {
            bytes: FileBytes::from_slice(alloc, bytes)?,
            verifier: None,
        })),
        SeenNode::Directory => Ok(Content::Directory),
        SeenNode::Link(text) => Ok(Content::Link(Bytes::from_slice(alloc, text)?)),
    }
}

/// Puts an object into its directory.
fn put(
    alloc: Global,
    nodes: &mut Nodes,
    number: u64,
    object: &SeenObject<'_>,
) -> Result<(), AllocError>
    requires stands { IsSome (entry_of nodes.old object.now.parent) }
    requires free { node_in nodes.old object.now.parent object.now.name.now ≡ None }
    requires new { entry_of nodes.old number ≡ None }
    requires room { finite.len nodes.old < node_limit }
    requires short { length object.now.name.now < 2 ^ 32 }
    requires fits { Fits (seen_node object.now.node) }
    ensures { OnOk result (nodes.new ≡ with_object nodes.old number (seen_object object.now)) }
{
    let content = content_of(alloc, &object.node)?;
    let node = Node {
        object: number,
        content,
    };
    drop(nodes.make(object.parent, object.name, node)?);
    Ok(())
}

/// The nodes of these objects.
fn build(alloc: Global, objects: &[SeenObject<'_>]) -> Result<Nodes, AllocError>
    requires start { IsStart (all_seen objects.now) }
    requires few { length objects.now ≤ 1000000 }
    ensures { IfOk result (λ nodes. nodes ≡ start_tree (all_seen objects.now)) }
{
    let mut nodes = Nodes::opening(alloc)?;
    for (index, object) in objects.iter().enumerate() {
        put(alloc, &mut nodes, index as u64 + 1, object)?;
    }
    Ok(nodes)
}

/// The nodes of what stood at first.
pub(crate) fn nodes_of(alloc: Global, start: &SeenStart<'_>) -> Result<Nodes, AllocError>
    ensures { IfOk result (λ nodes. nodes ≡ start_tree start.now) }
{
    build(alloc, start.objects())
}
