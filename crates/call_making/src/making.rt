//! From what a client is going to ask to the call: calls on objects. Here each is held to the limits.

ghost use Rattle.std.specs.Prelude.{◌≡◌, ◌≤◌, IfOk, IfSome};
ghost use Rattle.call_making.specs.Asked.{IsAsked, IsSized, IsWithin};

use crate::stamp::Stamp;
use crate::wish::{Listing, Range, Wish};
use nfs3_types::{
    CommitArguments, Data, FILE_LIMIT, FileHandle, Held, NfsCall, ReadArguments, ReadDirArguments,
    ReadDirPlusArguments, SetAttrArguments, SetAttributes, StableHow, TRANSFER_LIMIT, Time,
    WriteArguments,
};
use std::alloc::{AllocError, Global};

/// The most bytes of a WRITE.
const WRITE_LIMIT: u32 = 4096;

/// Makes the calls under a stamp.
#[derive(Clone, Copy)]
pub struct Maker {
    pub alloc: Global,
    pub stamp: Stamp,
}

/// The range within the limit of files.
fn within(range: Range) -> Range
    ensures within { IsWithin result.offset result.count }
    ensures no_more { result.count ≤ range.count }
{
    let offset = range.offset.min(FILE_LIMIT);
    let count = u64::from(range.count).min(FILE_LIMIT - offset);
    Range {
        offset,
        count: count as u32,
    }
}

/// The attributes, with a size within the limit of files.
pub(crate) fn sized(attributes: SetAttributes) -> SetAttributes
    ensures { IsSized result }
{
    SetAttributes {
        mode: attributes.mode,
        user: attributes.user,
        group: attributes.group,
        size: match attributes.size {
            Some(size) => Some(size.min(FILE_LIMIT)),
            None => None,
        },
        access_time: attributes.access_time,
        modify_time: attributes.modify_time,
    }
}

impl Maker {
    /// The call that a client is going to ask.
    pub fn make(&self, wish: Wish<'_>) -> Result<NfsCall, AllocError>
        ensures asked { IfOk result (λ call. IsAsked self.now.stamp call) }
    {
        match wish {
            Wish::GetAttr(object) => self.get_attributes(object),
            Wish::SetAttr(object, attributes, guard) => self.set_attributes(
                object, attributes, guard,
            ),
            Wish::ReadLink(link) => self.read_link(link),
            Wish::Read(file, range) => self.read(file, range),
            Wish::Write(file, range, level) => self.write(file, range, level),
            Wish::Commit(file, range) => self.commit(file, range),
            Wish::List(listing) => self.list(listing),
            Wish::LookUp(place) => self.look_up(place),
            Wish::Create(place, mode) => self.create(place, mode),
            Wish::MkDir(place) => self.make_directory(place),
            Wish::SymLink(place, pick) => self.make_link(place, pick),
            Wish::Remove(place) => self.remove(place),
            Wish::RmDir(place) => self.remove_directory(place),
            Wish::Rename(from, to) => self.rename(from, to),
        }
    }

    fn get_attributes(&self, object: &FileHandle) -> Result<NfsCall, AllocError>
        ensures { IfOk result (λ call. IsAsked self.now.stamp call) }
    {
        Ok(NfsCall::GetAttr(object.clone()?))
    }

    fn set_attributes(
        &self,
        object: &FileHandle,
        attributes: SetAttributes,
        guard: Option<Time>,
    ) -> Result<NfsCall, AllocError>
        ensures { IfOk result (λ call. IsAsked self.now.stamp call) }
    {
        let arguments = SetAttrArguments {
            object: object.clone()?,
            attributes: sized(attributes),
            guard,
        };
        Ok(NfsCall::SetAttr(Held::new(self.alloc, arguments)?))
    }

    fn read_link(&self, link: &FileHandle) -> Result<NfsCall, AllocError>
        ensures { IfOk result (λ call. IsAsked self.now.stamp call) }
    {
        Ok(NfsCall::ReadLink(link.clone()?))
    }

    fn read(&self, file: &FileHandle, range: Range) -> Result<NfsCall, AllocError>
        ensures { IfOk result (λ call. IsAsked self.now.stamp call) }
    {
        let Range { offset, count } = within(range);
        Ok(NfsCall::Read(ReadArguments {
            file: file.clone()?,
            offset,
            count: count.min(TRANSFER_LIMIT as u32),
        }))
    }

    fn write(
        &self,
        file: &FileHandle,
        range: Range,
        level: StableHow,
    ) -> Result<NfsCall, AllocError>
        ensures { IfOk result (λ call. IsAsked self.now.stamp call) }
    {
        let Range { offset, count } = within(Range {
            offset: range.offset,
            count: range.count.min(WRITE_LIMIT),
        });
        let bytes = self.stamp.bytes(self.alloc, offset, count)?;
        let bytes = Data::from_slice(self.alloc, bytes.as_slice())?;
        Ok(NfsCall::Write(WriteArguments {
            file: file.clone()?,
            offset,
            count,
            level,
            bytes,
        }))
    }

    fn commit(&self, file: &FileHandle, range: Range) -> Result<NfsCall, AllocError>
        ensures { IfOk result (λ call. IsAsked self.now.stamp call) }
    {
        let Range { offset, count } = within(range);
        Ok(NfsCall::Commit(CommitArguments {
            file: file.clone()?,
            offset,
            count,
        }))
    }

    /// A list, or a page of one.
    fn list(&self, listing: Listing<'_>) -> Result<NfsCall, AllocError>
        ensures { IfOk result (λ call. IsAsked self.now.stamp call) }
    {
        let directory = listing.directory.clone()?;
        let count = listing.count.min(TRANSFER_LIMIT as u32);
        if listing.plus {
            Ok(NfsCall::ReadDirPlus(ReadDirPlusArguments {
                directory,
                cookie: listing.cookie,
                verifier: listing.verifier,
                directory_count: count,
                whole_count: (4 * count).min(TRANSFER_LIMIT as u32),
            }))
        } else {
            Ok(NfsCall::ReadDir(ReadDirArguments {
                directory,
                cookie: listing.cookie,
                verifier: listing.verifier,
                count,
            }))
        }
    }
}
