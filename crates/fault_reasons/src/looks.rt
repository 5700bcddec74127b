//! Successes of GETATTR, LOOKUP, READLINK and READ (RFC 1813, sections 3.3.1, 3.3.3, 3.3.5 and 3.3.6).

ghost use Rattle.std.specs.Prelude.{◌≤◌, length};

use crate::candidates::Site;
use nfs3_types::{
    Answer, Data, Device, DirectoryName, FileAttributes, FileHandle, FileType, Held, LinkText,
    LookupSuccess, NfsReply, Optional, ReadArguments, ReadLinkSuccess, ReadSuccess, TRANSFER_LIMIT,
    Time,
};
use std::alloc::AllocError;
use tree_answers::object_named;
use tree_handles::{directory_of, file_of, live_entry};
use tree_nodes::{Content, Node};

/// A time that isn't known.
const NEVER: Time = Time {
    seconds: 0,
    nanoseconds: 0,
};

/// The attributes of an object. What the tree doesn't have of it is 0.
fn attributes_of(node: &Node) -> FileAttributes {
    let (file_type, size) = match &node.content {
        Content::Directory => (FileType::Directory, 0),
        Content::File(file) => (FileType::Regular, file.bytes.len()),
        Content::Link(text) => (FileType::SymbolicLink, text.as_slice().len() as u64),
    };
    FileAttributes {
        file_type,
        mode: 0,
        link_count: 0,
        user: 0,
        group: 0,
        size,
        used: 0,
        device: Device { major: 0, minor: 0 },
        file_system: 0,
        file_number: node.object,
        access_time: NEVER,
        modify_time: NEVER,
        change_time: NEVER,
    }
}

pub(crate) fn attributes(
    site: &Site<'_>,
    object: &FileHandle,
) -> Result<Option<NfsReply>, AllocError> {
    let Some(node) = live_entry(&site.view, object) else {
        return Ok(None);
    };
    let attributes = Held::new(site.alloc, attributes_of(node))?;
    Ok(Some(NfsReply::GetAttr(Answer::Done(attributes))))
}

pub(crate) fn found(
    site: &Site<'_>,
    place: &DirectoryName,
) -> Result<Option<NfsReply>, AllocError> {
    let Some(directory) = directory_of(&site.view, &place.directory) else {
        return Ok(None);
    };
    let Some(object) = object_named(site.view.nodes, directory, place.name.as_slice()) else {
        return Ok(None);
    };
    let Some(handle) = site.handle(object)? else {
        return Ok(None);
    };
    let success = LookupSuccess {
        object: handle,
        attributes: Optional::none(),
        directory_attributes: Optional::none(),
    };
    let success = Held::new(site.alloc, success)?;
    Ok(Some(NfsReply::Lookup(Answer::Done(success))))
}

pub(crate) fn text(site: &Site<'_>, link: &FileHandle) -> Result<Option<NfsReply>, AllocError> {
    let Some(node) = live_entry(&site.view, link) else {
        return Ok(None);
    };
    let Content::Link(text) = &node.content else {
        return Ok(None);
    };
    let success = ReadLinkSuccess {
        attributes: Optional::none(),
        target: LinkText::from_slice(site.alloc, text.as_slice())?,
    };
    Ok(Some(NfsReply::ReadLink(Answer::Done(success))))
}

/// The bytes from an offset on, at most so many.
fn part(bytes: &[u8], offset: u64, count: usize) -> &[u8]
    ensures { length result.now ≤ count }
{
    let start = offset.min(bytes.len() as u64) as usize;
    let behind = &bytes[start..];
    &behind[..behind.len().min(count)]
}

pub(crate) fn bytes(site: &Site<'_>, call: &ReadArguments) -> Result<Option<NfsReply>, AllocError> {
    let Some(entry) = file_of(&site.view, &call.file) else {
        return Ok(None);
    };
    let mut all = Vec::new(site.alloc);
    entry.file.bytes.put(&mut all)?;
    let count = (call.count as usize).min(TRANSFER_LIMIT);
    let found = part(all.as_slice(), call.offset, count);
    let left = (all.len() as u64).saturating_sub(call.offset);
    let success = ReadSuccess {
        attributes: Optional::none(),
        count: found.len() as u32,
        eof: left <= found.len() as u64,
        bytes: Data::from_slice(site.alloc, found)?,
    };
    Ok(Some(NfsReply::Read(Answer::Done(success))))
}
