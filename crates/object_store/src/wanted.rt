//! Which objects a call is about.

use crate::held::{Held, MOST_HELD};
use nfs3_types::{DirectoryName, FileHandle, NfsCall};
use std::alloc::{AllocError, Global};

/// The number that a handle spells: eight bytes, the highest first. A handle of another length names nothing.
pub fn number_of(handle: &FileHandle) -> Option<u64> {
    let bytes = handle.as_slice();
    match bytes.try_into() {
        Ok(bytes) => Some(u64::from_be_bytes(bytes)),
        Err(_) => None,
    }
}

/// A handle of a call, with the name in its directory, if there is one.
#[derive(Clone, Copy)]
struct Target<'a> {
    object: Option<u64>,
    name: Option<&'a [u8]>,
}

impl<'a> Target<'a> {
    fn of_handle(handle: &FileHandle) -> Target<'a> {
        Target {
            object: number_of(handle),
            name: None,
        }
    }

    fn of_place(place: &'a DirectoryName) -> Target<'a> {
        Target {
            object: number_of(&place.directory),
            name: Some(place.name.as_slice()),
        }
    }

    /// The object that the name leads to. Only a LOOKUP is led by `..`, to the directory that a directory lies in.
    fn lead(&self, held: &Held, looks_up: bool) -> Option<u64> {
        let directory = self.object?;
        let name = self.name?;
        let names = held.get(directory)?.names()?;
        if looks_up && name == b"..".as_slice() {
            if let Some(parents) = held.parents() {
                return Some(parents.parent(directory));
            }
        }
        names.get(name)
    }
}

/// What a call is about: its handles, and its names.
#[derive(Clone, Copy)]
pub struct Targets<'a> {
    first: Target<'a>,
    second: Option<Target<'a>>,
    looks_up: bool,
    wants_parents: bool,
}

/// Whether a call changes directories, or asks for the one that a directory lies in.
fn wants_parents(call: &NfsCall) -> bool {
    match call {
        NfsCall::MkDir(_) | NfsCall::RmDir(_) | NfsCall::Rename(_) => true,
        NfsCall::Lookup(place) => place.name.as_slice() == b"..".as_slice(),
        _ => false,
    }
}

impl<'a> Targets<'a> {
    /// Those of a call.
    pub fn of_call(call: &'a NfsCall) -> Targets<'a> {
        let first = match call {
            NfsCall::GetAttr(object) => Target::of_handle(object),
            NfsCall::SetAttr(call) => Target::of_handle(&call.object),
            NfsCall::Lookup(place) => Target::of_place(place),
            NfsCall::ReadLink(link) => Target::of_handle(link),
            NfsCall::Read(call) => Target::of_handle(&call.file),
            NfsCall::Write(call) => Target::of_handle(&call.file),
            NfsCall::Create(call) => Target::of_place(&call.place),
            NfsCall::MkDir(call) => Target::of_place(&call.place),
            NfsCall::SymLink(call) => Target::of_place(&call.place),
            NfsCall::Remove(place) => Target::of_place(place),
            NfsCall::RmDir(place) => Target::of_place(place),
            NfsCall::Rename(call) => Target::of_place(&call.from),
            NfsCall::ReadDir(call) => Target::of_handle(&call.directory),
            NfsCall::ReadDirPlus(call) => Target::of_handle(&call.directory),
            NfsCall::Commit(call) => Target::of_handle(&call.file),
        };
        let second = match call {
            NfsCall::Rename(call) => Some(Target::of_place(&call.to)),
            _ => None,
        };
        Targets {
            first,
            second,
            looks_up: matches!(call, NfsCall::Lookup(_)),
            wants_parents: wants_parents(call),
        }
    }

    /// Whether the call needs to know which directory each directory lies in.
    pub(crate) fn wants_parents(&self) -> bool {
        self.wants_parents
    }

    /// The objects of the handles, in rising order.
    pub(crate) fn handles(&self, alloc: Global) -> Result<Vec<u64>, AllocError> {
        let mut numbers = Vec::with_capacity(alloc, MOST_HELD)?;
        if let Some(object) = self.first.object {
            put_in_order(&mut numbers, object)?;
        }
        if let Some(object) = self.second.and_then(|target| target.object) {
            put_in_order(&mut numbers, object)?;
        }
        Ok(numbers)
    }

    /// The objects of the handles and these, in rising order.
    pub(crate) fn handles_with(
        &self,
        alloc: Global,
        others: &[u64],
    ) -> Result<Vec<u64>, AllocError> {
        let mut numbers = self.handles(alloc)?;
        for number in others {
            put_in_order(&mut numbers, *number)?;
        }
        Ok(numbers)
    }

    /// The objects that the names lead to, in rising order.
    pub(crate) fn leads(&self, alloc: Global, held: &Held) -> Result<Vec<u64>, AllocError> {
        let mut numbers = Vec::with_capacity(alloc, MOST_HELD)?;
        if let Some(object) = self.first.lead(held, self.looks_up) {
            put_in_order(&mut numbers, object)?;
        }
        if let Some(second) = &self.second {
            if let Some(object) = second.lead(held, self.looks_up) {
                put_in_order(&mut numbers, object)?;
            }
        }
        Ok(numbers)
    }
}

/// Puts a number among others that rise, if it isn't there.
fn put_in_order(numbers: &mut Vec<u64>, number: u64) -> Result<(), AllocError> {
    match numbers.as_slice().binary_search(&number) {
        Ok(_) => Ok(()),
        Err(place) => {
            numbers.insert(place, number)?;
            Ok(())
        }
    }
}
