//! What an object holds.

use tree_stores::Names;

/// A file: its bytes, and the verifier of the EXCLUSIVE CREATE that made it (RFC 1813, section 3.3.8).
#[derive(Drop)]
pub struct File {
    /// All bytes of the file.
    pub bytes: Vec<u8>,
    /// The verifier (`createverf3`), the number that its eight bytes spell; absent where no exclusive CREATE made it.
    pub verifier: Option<u64>,
}

/// What an object holds.
pub enum Content {
    /// Its names, with the numbers of their objects.
    Directory(Names),
    /// A regular file.
    File(File),
    /// Its text.
    Link(Vec<u8>),
}

impl Drop for Content {
    fn drop(self) {
        match self {
            Content::Directory(names) => drop(names),
            Content::File(file) => drop(file),
            Content::Link(text) => drop(text),
        }
    }
}

impl Content {
    /// The names of a directory, to be changed.
    pub(crate) fn names_mut(&mut self) -> Option<&mut Names> {
        match self {
            Content::Directory(names) => Some(names),
            Content::File(_) | Content::Link(_) => None,
        }
    }

    /// Whether it is a directory's.
    pub(crate) fn is_directory(&self) -> bool {
        matches!(self, Content::Directory(_))
    }
}

/// An object with its number.
pub struct Node {
    /// The object's number.
    pub number: u64,
    /// What it holds.
    pub content: Content,
}

impl Drop for Node {
    fn drop(self) {
        let Node { number: _, content } = self;
        drop(content);
    }
}

impl Node {
    /// The number, and what the object holds.
    pub(crate) fn into_parts(self) -> (u64, Content) {
        let Node { number, content } = self;
        (number, content)
    }

    /// The names of a directory.
    pub fn names(&self) -> Option<&Names> {
        match &self.content {
            Content::Directory(names) => Some(names),
            _ => None,
        }
    }

    /// The same, to be changed.
    pub fn names_mut(&mut self) -> Option<&mut Names> {
        self.content.names_mut()
    }

    /// A file, to be changed.
    pub fn file_mut(&mut self) -> Option<&mut File> {
        match &mut self.content {
            Content::File(file) => Some(file),
            _ => None,
        }
    }

    /// Whether it is a directory.
    pub fn is_directory(&self) -> bool {
        self.content.is_directory()
    }
}
