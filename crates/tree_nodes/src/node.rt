//! The nodes of a tree.

use crate::bytes::Bytes;
use tree_stores::FileBytes;
use tree_stores::nfs3_types::Verifier;

/// An object with its number.
#[derive(Drop)]
pub struct Node {
    /// The object's number: 0 for the root, k for starting object k, s + n for what call n made where s objects stood at first.
    pub object: u64,
    /// What the object is.
    pub content: Content,
}

/// What an object is (RFC 1813, section 2.6, `ftype3`), as far as a tree has it.
#[derive(Drop)]
pub enum Content {
    /// A directory (`NF3DIR`). Its names aren't held here.
    Directory,
    /// A regular file (`NF3REG`) with its bytes.
    File(File),
    /// A symbolic link with its text.
    Link(Bytes),
}

/// A regular file, and the verifier with which an exclusive CREATE made it.
#[derive(Drop)]
pub struct File {
    /// All bytes, at most `nfs3_types::FILE_LIMIT`.
    pub bytes: FileBytes,
    /// Absent where the CREATE wasn't exclusive.
    pub verifier: Option<Verifier>,
}
