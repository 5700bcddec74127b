//! What an object is, with a file's bytes and a link's text.

use crate::refusal::{Cause, Special, Stop};
use crate::room::Room;
use nfs3_types::{Data, FILE_LIMIT, LinkText};
use std::fs::{self, Metadata, OpenFile};
use std::io::{self, Read};
use std::os::unix::fs::MetadataExt;
use std::rt::Files;
use tree_starts::{StartNode, TEXT_LIMIT};

/// Reads a file into a buffer in place of what is there, and no more than one byte behind the size that it had. What the system tells of it
/// then.
fn read_file<R: Files>(
    rt: &R,
    path: &str,
    size: u64,
    buffer: &mut Vec<u8>,
) -> io::Result<Metadata> {
    buffer.clear();
    let file = fs::open(rt, path)?;
    let mut front = file.take(size.saturating_add(1));
    front.read_to_end(buffer)?;
    front.get_ref().metadata()
}

/// Whether what the system told of a file is what it told before it was read.
fn is_same(before: &Metadata, after: &Metadata) -> bool {
    before.file_type() == after.file_type()
        && before.len() == after.len()
        && before.mtime() == after.mtime()
        && before.mtime_nsec() == after.mtime_nsec()
        && before.ctime() == after.ctime()
        && before.ctime_nsec() == after.ctime_nsec()
}

/// The file at a path, of which the system told this.
fn file_node<R: Files + AllocGlobal>(
    rt: &R,
    path: &str,
    told: &Metadata,
    room: &mut Room,
    buffer: &mut Vec<u8>,
) -> Result<StartNode, Stop> {
    let size = told.len();
    if size > FILE_LIMIT {
        return Err(Stop::Refused(Cause::FileTooLarge(size)));
    }
    room.take_contents(size)?;
    let after = match read_file(rt, path, size, buffer) {
        Ok(after) => after,
        Err(error) => return Err(Stop::of_object(error)),
    };
    if buffer.len() as u64 != size || !is_same(told, &after) {
        return Err(Stop::Refused(Cause::Changed));
    }
    let data = Data::from_slice(rt.alloc(), buffer.as_slice())?;
    Ok(StartNode::File(data))
}

/// The link with this text.
fn link_of<R: AllocGlobal>(rt: &R, text: &str, room: &mut Room) -> Result<StartNode, Stop> {
    let bytes = text.as_bytes();
    if bytes.len() > TEXT_LIMIT {
        return Err(Stop::Refused(Cause::TextTooLong));
    }
    room.take_contents(bytes.len() as u64)?;
    let target = LinkText::from_slice(rt.alloc(), bytes)?;
    Ok(StartNode::Link(target))
}

/// The link at a path.
fn link_node<R: Files + AllocGlobal>(
    rt: &R,
    path: &str,
    room: &mut Room,
) -> Result<StartNode, Stop> {
    match fs::read_link(rt, path) {
        Ok(text) => link_of(rt, text.into_string().as_str(), room),
        Err(error) => Err(Stop::of_link(error)),
    }
}

/// The object at a path, of which the system told this. Files are read by way of a buffer.
pub(crate) fn node_at<R: Files + AllocGlobal>(
    rt: &R,
    path: &str,
    told: &Metadata,
    room: &mut Room,
    buffer: &mut Vec<u8>,
) -> Result<StartNode, Stop> {
    if told.is_dir() {
        return Ok(StartNode::Directory);
    }
    if !told.is_file() && !told.is_symlink() {
        return Err(Stop::Refused(Cause::Special(Special::of(told))));
    }
    if told.nlink() > 1 {
        return Err(Stop::Refused(Cause::Linked(told.nlink())));
    }
    if told.is_symlink() {
        return link_node(rt, path, room);
    }
    file_node(rt, path, told, room, buffer)
}
