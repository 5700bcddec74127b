//! What a successful RENAME makes of a tree (RFC 1813, section 3.3.14).

ghost use Rattle.std.specs.Prelude.{◌≡◌, ◌<◌, ◌^◌, ◌==◌, ◌∷◌, ◌++◌, [], Some, false, length};
ghost use Rattle.std.specs.Option.{option_copied, option_map_or};
ghost use Rattle.tree_nodes.specs.declared.node.Node.{Node};
ghost use Rattle.tree_nodes.specs.Tree.{Names, entry_of};
ghost use Rattle.file_tree.specs.Planning.{Plans};
ghost use Rattle.file_tree.specs.Removed.{may_replace, rename_at, rename};

use crate::object_change::ObjectChange;
use nfs3_types::RenameArguments;
use replay_law::StepFault;
use tree_answers::tree_handles::{View, directory_of, is_directory, is_plain, named};
use tree_nodes::{Content, Node, Nodes};

/// Whether such an object may take the place of a node, if any: both are directories, or neither is.
fn may_replace(content: &Content, target: Option<&Node>) -> bool
    ensures { result ≡ may_replace content.now (option_copied target.entry) }
{
    match target {
        Some(node) => is_directory(content) == is_directory(&node.content),
        None => true,
    }
}

/// Whether a node, if any, is an object.
fn is_object(node: Option<&Node>, object: u64) -> bool
    ensures { result ≡ option_map_or (λ n. object == n.object) (option_copied node.entry) false }
{
    match node {
        Some(node) => object == node.object,
        None => false,
    }
}

/// An entry goes to a name of a directory.
fn rename_at<'a>(
    nodes: &Nodes,
    source: &Node,
    directory: u64,
    name: &'a [u8],
) -> Result<ObjectChange<'a>, StepFault>
    requires { length name.now < 2 ^ 32 }
    ensures { (p : Names) (e : Names × Node) → entry_of nodes.now source.now.object ≡ Some (p, source.now)
        → entry_of nodes.now directory ≡ Some e → Plans nodes.now result (rename_at nodes.now p source.now.content (e.0 ++ name.now ∷ [])) }
{
    let target = nodes.entry(directory, name);
    let object = source.object;
    if is_object(target, object) {
        return Ok(ObjectChange::Keep);
    }
    if nodes.is_from(directory, object)
        || !may_replace(&source.content, target)
        || !nodes.is_bare_at(directory, name)
    {
        return Err(StepFault::NotAllowed);
    }
    Ok(ObjectChange::Rename {
        object,
        directory,
        name,
    })
}

/// What the call makes of the tree.
pub(crate) fn rename<'a>(
    view: &View<'_>,
    call: &'a RenameArguments,
) -> Result<ObjectChange<'a>, StepFault>
    ensures { Plans view.now.nodes.now result (rename view.now.binds.now view.now.nodes.now call.now) }
{
    let Some(source) = named(view, &call.from) else {
        return Err(StepFault::NotAllowed);
    };
    let Some(directory) = directory_of(view, &call.to.directory) else {
        return Err(StepFault::NotAllowed);
    };
    let name = call.to.name.as_slice();
    if !is_plain(name) {
        return Err(StepFault::NotAllowed);
    }
    rename_at(view.nodes, source, directory, name)
}
