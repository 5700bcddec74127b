//! What a step is to do with the objects of a tree.

use tree_nodes::Node;

/// What becomes of a tree.
#[derive(Drop)]
pub(crate) enum ObjectChange<'a> {
    /// It stays.
    Keep,
    /// A directory gets an entry.
    Make {
        directory: u64,
        name: &'a [u8],
        node: Node,
    },
    /// Bytes go to a file at an offset.
    Write {
        object: u64,
        offset: u64,
        bytes: &'a [u8],
    },
    /// A file is cut, or filled with zeros, to a size.
    Resize {
        object: u64,
        size: u64,
    },
    /// An entry goes.
    Remove {
        object: u64,
    },
    /// An entry goes to a name of a directory, in place of what stands there.
    Rename {
        object: u64,
        directory: u64,
        name: &'a [u8],
    },
}
