//! What a call sees.

use nfs3_types::{Failure, FileHandle};
use object_store::{Content, File, Held, Node, number_of};
use std::alloc::{AllocError, Global};
use tree_starts::Profile;
use tree_stores::Names;

/// What a call sees: the objects that it has taken out, and the numbers that its reply is made of.
#[derive(Clone, Copy)]
pub struct Scene<'a> {
    /// The allocator of the reply's memory.
    pub alloc: Global,
    /// The objects that the call has taken out.
    pub held: &'a Held,
    /// The number that an object which this call makes gets.
    pub object: u64,
    /// The era, which is the write verifier.
    pub era: u64,
    /// Whether the reply carries attributes: under the strict profile alone.
    pub profile: Profile,
}

impl<'a> Scene<'a> {
    /// The object of a handle.
    pub(crate) fn live(&self, handle: &FileHandle) -> Result<&'a Node, Failure> {
        let number = number_of(handle).ok_or(Failure::Stale)?;
        self.held.get(number).ok_or(Failure::Stale)
    }

    /// The directory of a handle, with its names.
    pub(crate) fn directory(&self, handle: &FileHandle) -> Result<(u64, &'a Names), Failure> {
        let node = self.live(handle)?;
        match &node.content {
            Content::Directory(names) => Ok((node.number, names)),
            _ => Err(Failure::NotDirectory),
        }
    }

    /// The file of a handle.
    pub(crate) fn file(&self, handle: &FileHandle) -> Result<(u64, &'a File), Failure> {
        let node = self.live(handle)?;
        match &node.content {
            Content::File(file) => Ok((node.number, file)),
            Content::Directory(_) => Err(Failure::IsDirectory),
            Content::Link(_) => Err(Failure::Invalid),
        }
    }

    /// The object that a name leads to.
    pub(crate) fn entry(&self, names: &Names, name: &[u8]) -> Option<&'a Node> {
        self.held.get(names.get(name)?)
    }

    /// The handle of an object: its number in eight bytes, the highest first.
    pub(crate) fn handle(&self, number: u64) -> Result<FileHandle, AllocError> {
        FileHandle::from_slice(self.alloc, &number.to_be_bytes())
    }
}

/// Whether an object can be made under a name.
pub(crate) fn is_plain(name: &[u8]) -> bool {
    !matches!(name, b"" | b"." | b"..")
}
