//! Names in directories.

ghost use Rattle.std.specs.Prelude.{◌≡◌, ◌∷◌, ◌++◌, [], option_and_then};
ghost use Rattle.std.specs.Option.{option_copied, option_map};
ghost use Rattle.tree_nodes.specs.declared.node.Node.{Node};
ghost use Rattle.tree_nodes.specs.Tree.{Names, entry_of};
ghost use Rattle.tree_nodes.specs.Place.{path_of};
ghost use Rattle.tree_handles.specs.Entry.{entry_at, named};

use crate::live::{View, directory_of};
use nfs3_types::DirectoryName;
use tree_nodes::{Node, Nodes};
use tree_starts::is_plain;

/// The node of an entry of a directory.
pub fn entry_at<'a>(nodes: &'a Nodes, directory: u64, name: &[u8]) -> Option<&'a Node>
    ensures node { option_copied result ≡ option_and_then (λ path. entry_at nodes.now path name.now) (path_of nodes.now directory) }
    ensures place { option_and_then (λ n. entry_of nodes.now n.object) (option_copied result)
        ≡ option_and_then (λ path. option_map {U = Names × Node} (λ n. (path ++ name.now ∷ [], n)) (entry_at nodes.now path name.now)) (path_of nodes.now directory) }
{
    if is_plain(name) {
        nodes.entry(directory, name)
    } else {
        None
    }
}

/// The entry that a call names.
pub fn named<'a>(view: &View<'a>, place: &DirectoryName) -> Option<&'a Node>
    ensures node { option_copied result ≡ option_map (λ e. e.1) (named view.now.binds.now view.now.nodes.now place.now) }
    ensures place { option_and_then (λ n. entry_of view.now.nodes.now n.object) (option_copied result)
        ≡ named view.now.binds.now view.now.nodes.now place.now }
{
    let directory = directory_of(view, &place.directory)?;
    entry_at(view.nodes, directory, place.name.as_slice())
}
