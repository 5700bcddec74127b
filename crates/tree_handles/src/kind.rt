//! What an object is (RFC 1813, section 2.6).

ghost use Rattle.std.specs.Prelude.{◌≡◌};
ghost use Rattle.tree_handles.specs.Kind.{is_directory, is_file, is_link};

use tree_nodes::Content;

/// Whether an object is a directory.
pub fn is_directory(content: &Content) -> bool
    ensures { result ≡ is_directory content.now }
{
    match content {
        Content::Directory => true,
        Content::File(_) => false,
        Content::Link(_) => false,
    }
}

/// Whether an object is a file.
pub fn is_file(content: &Content) -> bool
    ensures { result ≡ is_file content.now }
{
    match content {
        Content::Directory => false,
        Content::File(_) => true,
        Content::Link(_) => false,
    }
}

/// Whether an object is a link.
pub fn is_link(content: &Content) -> bool
    ensures { result ≡ is_link content.now }
{
    match content {
        Content::Directory => false,
        Content::File(_) => false,
        Content::Link(_) => true,
    }
}
