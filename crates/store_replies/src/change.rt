//! What a call changes.

use object_store::{Content, File};
use std::alloc::{AllocError, Global};
use tree_stores::Names;

/// An object that a call makes.
#[derive(Clone, Copy)]
pub enum NewObject<'a> {
    /// A file of so many zeros, with the verifier of an EXCLUSIVE CREATE.
    File { size: u64, verifier: Option<u64> },
    /// An empty directory.
    Directory,
    /// Of this text.
    Link(&'a [u8]),
}

impl NewObject<'_> {
    /// What the object holds.
    pub(crate) fn content(&self, alloc: Global) -> Result<Content, AllocError> {
        match self {
            NewObject::File { size, verifier } => {
                let mut bytes = Vec::new(alloc);
                bytes.resize(*size as usize, 0)?;
                Ok(Content::File(File {
                    bytes,
                    verifier: *verifier,
                }))
            }
            NewObject::Directory => Ok(Content::Directory(Names::new(alloc))),
            NewObject::Link(text) => Ok(Content::Link(Vec::from_slice(alloc, text)?)),
        }
    }
}

/// A name that moves, with its object.
#[derive(Clone, Copy)]
pub struct Renaming<'a> {
    /// The object number of the directory that loses the name.
    pub from: u64,
    /// The name that it loses.
    pub from_name: &'a [u8],
    /// The object number of the directory that gets the name.
    pub to: u64,
    /// The name that it gets.
    pub to_name: &'a [u8],
    /// The number of the object that moves.
    pub object: u64,
    /// Whether the object that moves is a directory.
    pub is_directory: bool,
    /// The object that had the name.
    pub replaced: Option<u64>,
}

/// What a call changes. The numbers are those of the objects.
#[derive(Clone, Copy)]
pub enum Change<'a> {
    /// No object changes.
    Nothing,
    /// A file is cut, or filled with zeros, to a size.
    Resize {
        /// The number of the file.
        object: u64,
        /// Its new size, in bytes.
        size: u64,
    },
    /// Bytes go into a file, and a gap before them becomes zeros.
    Write {
        /// The number of the file.
        object: u64,
        /// Where the first byte goes, counted from 0.
        offset: u64,
        /// The bytes.
        bytes: &'a [u8],
    },
    /// A directory gets a name with a new object.
    Make {
        /// The number of the directory.
        directory: u64,
        /// The name that it gets.
        name: &'a [u8],
        /// What is made.
        object: NewObject<'a>,
    },
    /// A directory loses a name, and the object of that name goes.
    Remove {
        /// The number of the directory.
        directory: u64,
        /// The name that it loses.
        name: &'a [u8],
        /// The number of the object that goes.
        object: u64,
    },
    /// A name moves with its object.
    Rename(Renaming<'a>),
}

impl Change<'_> {
    /// The size of an object behind the change, from its size ahead of it.
    pub(crate) fn size_after(&self, number: u64, before: u64) -> u64 {
        match self {
            Change::Resize { object, size } if *object == number => *size,
            Change::Write {
                object,
                offset,
                bytes,
            } if *object == number => before.max(offset.saturating_add(bytes.len() as u64)),
            _ => before,
        }
    }
}
