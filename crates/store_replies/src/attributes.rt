//! The attributes of objects that a reply carries (RFC 1813, section 2.6): none under the plain profile.

use crate::change::{Change, NewObject};
use crate::scene::Scene;
use nfs3_types::{
    Device, FileAttributes, FileHandle, FileType, Held, Optional, RenameArguments, RenameWcc, Time,
    WccAttributes, WccData,
};
use object_store::{Content, Node};
use std::alloc::AllocError;
use tree_starts::Profile;

/// The mode of each object: its owner reads and writes it, everybody else reads it.
const MODE: u32 = 420;
/// Every time of each object.
const START: Time = Time {
    seconds: 0,
    nanoseconds: 0,
};
/// The bytes of an object's attributes (`fattr3`).
const ATTRIBUTES: usize = 84;

/// What is known of an object.
#[derive(Clone, Copy)]
pub(crate) struct Known {
    number: u64,
    file_type: FileType,
    size: u64,
}

impl Known {
    /// Of an object ahead of the call.
    pub(crate) fn of(node: &Node) -> Known {
        let (file_type, size) = match &node.content {
            Content::Directory(_) => (FileType::Directory, 0),
            Content::File(file) => (FileType::Regular, file.bytes.len() as u64),
            Content::Link(text) => (FileType::SymbolicLink, text.len() as u64),
        };
        Known {
            number: node.number,
            file_type,
            size,
        }
    }

    /// Of an object that the call makes.
    fn of_made(number: u64, made: &NewObject<'_>) -> Known {
        let (file_type, size) = match made {
            NewObject::Directory => (FileType::Directory, 0),
            NewObject::File { size, .. } => (FileType::Regular, *size),
            NewObject::Link(text) => (FileType::SymbolicLink, text.len() as u64),
        };
        Known {
            number,
            file_type,
            size,
        }
    }

    /// What is known of the object behind a change.
    fn after(self, change: &Change<'_>) -> Known {
        Known {
            number: self.number,
            file_type: self.file_type,
            size: change.size_after(self.number, self.size),
        }
    }

    /// The object's attributes (`fattr3`). What isn't known of it is 0.
    pub(crate) fn attributes(self) -> FileAttributes {
        FileAttributes {
            file_type: self.file_type,
            mode: MODE,
            link_count: 1,
            user: 0,
            group: 0,
            size: self.size,
            used: 0,
            device: Device { major: 0, minor: 0 },
            file_system: 0,
            file_number: self.number,
            access_time: START,
            modify_time: START,
            change_time: START,
        }
    }

    /// Those of them that tell of a change (`wcc_attr`).
    fn wcc_attributes(self) -> WccAttributes {
        WccAttributes {
            size: self.size,
            modify_time: START,
            change_time: START,
        }
    }
}

impl Scene<'_> {
    /// How many bytes a reply's attributes of one object take that the plain profile leaves out.
    pub(crate) fn attributes_length(&self) -> usize {
        match self.profile {
            Profile::Plain => 0,
            Profile::Strict => ATTRIBUTES,
        }
    }

    /// A value that the reply carries where it is known, and under the strict profile alone.
    fn optional<T: Copy + Drop>(&self, value: Option<T>) -> Result<Optional<T>, AllocError> {
        match (value, self.profile) {
            (Some(value), Profile::Strict) => Optional::some(self.alloc, value),
            _ => Ok(Optional::none()),
        }
    }

    /// The object of a handle, ahead of the call.
    fn known(&self, handle: &FileHandle) -> Option<Known> {
        match self.live(handle) {
            Ok(node) => Some(Known::of(node)),
            Err(_) => None,
        }
    }

    /// An object behind a change of the call: the one that it makes, or one that is held.
    fn known_after(&self, number: u64, change: &Change<'_>) -> Option<Known> {
        match change {
            Change::Make { object, .. } if number == self.object => {
                Some(Known::of_made(number, object))
            }
            _ => {
                let node = self.held.get(number)?;
                Some(Known::of(node).after(change))
            }
        }
    }

    /// The attributes of a handle's object, which the call doesn't change (`post_op_attr`).
    pub(crate) fn attributes(
        &self,
        handle: &FileHandle,
    ) -> Result<Optional<FileAttributes>, AllocError> {
        self.optional(self.known(handle).map(|known| known.attributes()))
    }

    /// The attributes of an object behind a change (`post_op_attr`).
    pub(crate) fn attributes_after(
        &self,
        number: u64,
        change: &Change<'_>,
    ) -> Result<Optional<FileAttributes>, AllocError> {
        self.optional(
            self.known_after(number, change)
                .map(|known| known.attributes()),
        )
    }

    /// The attributes of a handle's object ahead of a change and behind it (`wcc_data`).
    pub(crate) fn wcc(
        &self,
        handle: &FileHandle,
        change: &Change<'_>,
    ) -> Result<WccData, AllocError> {
        let known = self.known(handle);
        Ok(WccData {
            before: self.optional(known.map(|known| known.wcc_attributes()))?,
            after: self.optional(known.map(|known| known.after(change).attributes()))?,
        })
    }

    /// The same of both directories of a RENAME.
    pub(crate) fn wcc_of_both(
        &self,
        call: &RenameArguments,
        change: &Change<'_>,
    ) -> Result<Held<RenameWcc>, AllocError> {
        let both = RenameWcc {
            from: self.wcc(&call.from.directory, change)?,
            to: self.wcc(&call.to.directory, change)?,
        };
        Held::new(self.alloc, both)
    }
}
