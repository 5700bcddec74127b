//! The objects that were found.

use crate::refusal::{Cause, Change, Spot, Stop};
use indexmap::IndexMap;
use nfs3_types::{FILE_LIMIT, FileAttributes, FileHandle, Time};
use std::alloc::{AllocError, Global};
use tree_starts::TEXT_LIMIT;
use walk_accounts::{Account, Kind};

/// The objects that were found, with the attributes that were told of each first. They are looked up by handle and by `fileid`.
pub(crate) struct Known {
    /// The root's is the first.
    pub(crate) accounts: Vec<Account>,
    /// Of the accounts, in their order.
    first: Vec<FileAttributes>,
    handles: IndexMap<Vec<u8>, usize>,
    files: IndexMap<u64, usize>,
}

impl Drop for Known {
    fn drop(self) {
        let Known {
            accounts,
            first,
            handles,
            files,
        } = self;
        drop(accounts);
        drop(first);
        drop(handles);
        drop(files);
    }
}

fn is_same_time(one: Time, other: Time) -> bool {
    one.seconds == other.seconds && one.nanoseconds == other.nanoseconds
}

/// What was told otherwise.
pub(crate) fn change_of(first: &FileAttributes, last: &FileAttributes) -> Option<Change> {
    if first.file_type != last.file_type {
        Some(Change::Kind)
    } else if first.file_number != last.file_number || first.file_system != last.file_system {
        Some(Change::FileId)
    } else if first.size != last.size {
        Some(Change::Size)
    } else if !is_same_time(first.modify_time, last.modify_time) {
        Some(Change::ModifyTime)
    } else if !is_same_time(first.change_time, last.change_time) {
        Some(Change::ChangeTime)
    } else {
        None
    }
}

/// The kind of an object that a start can hold, by its attributes.
fn kind_told(attributes: &FileAttributes) -> Result<Kind, Cause> {
    let Some(kind) = Kind::of(attributes.file_type) else {
        return Err(Cause::Special(attributes.file_type));
    };
    if kind != Kind::Directory && attributes.link_count > 1 {
        return Err(Cause::Linked(attributes.link_count));
    }
    match kind {
        Kind::File if attributes.size > FILE_LIMIT => Err(Cause::FileTooLarge(attributes.size)),
        Kind::Link if attributes.size > TEXT_LIMIT as u64 => Err(Cause::TextTooLong),
        _ => Ok(kind),
    }
}

impl Known {
    pub(crate) fn new(alloc: Global) -> Known {
        Known {
            accounts: Vec::new(alloc),
            first: Vec::new(alloc),
            handles: IndexMap::new(alloc),
            files: IndexMap::new(alloc),
        }
    }

    /// The account whose object has this handle, or this `fileid`.
    pub(crate) fn same(&self, handle: &[u8], file_number: u64) -> Option<usize> {
        if let Some(number) = self.handles.get(handle) {
            return Some(*number);
        }
        match self.files.get(&file_number) {
            Some(number) => Some(*number),
            None => None,
        }
    }

    /// Takes in the attributes that were told first of the last account.
    pub(crate) fn note(
        &mut self,
        alloc: Global,
        handle: &FileHandle,
        attributes: &FileAttributes,
    ) -> Result<(), AllocError> {
        let number = self.first.len();
        let key = Vec::from_slice(alloc, handle.as_slice())?;
        self.handles.insert(key, number)?;
        self.files.insert(attributes.file_number, number)?;
        self.first.push(*attributes)?;
        Ok(())
    }

    /// What an object is that was told of now, if the export isn't to be refused for it.
    pub(crate) fn judge(
        &self,
        handle: &FileHandle,
        attributes: &FileAttributes,
        spot: Spot,
    ) -> Result<Kind, Stop> {
        if let Some(root) = self.first.first()
            && root.file_system != attributes.file_system
        {
            return Err(Stop::at(Cause::OtherFileSystem, spot));
        }
        if let Some(other) = self.same(handle.as_slice(), attributes.file_number) {
            return Err(Stop::Refused {
                cause: Cause::TwoNames,
                spot,
                other: Some(other),
            });
        }
        match kind_told(attributes) {
            Ok(kind) => Ok(kind),
            Err(cause) => Err(Stop::at(cause, spot)),
        }
    }

    /// What was told first of an object.
    pub(crate) fn first_told(&self, number: usize) -> Option<FileAttributes> {
        match self.first.get(number) {
            Some(attributes) => Some(*attributes),
            None => None,
        }
    }
}
