//! The root handle of an export, as a reply of MOUNT gives it (RFC 1813, section 5.2.1).

ghost use Rattle.std.specs.Prelude.{◌≤◌, length, IfSome};

use crate::connection::Connection;
use crate::direction::Direction;
use crate::found::{Found, FoundKind};
use crate::way::way_of;
use nfs3_types::{FileHandle, HANDLE_LIMIT};
use rpc_reader::{ReplyBody, read_call, read_reply};
use std::alloc::{AllocError, Global};
use xdr_records::Reader;

/// The number of the program.
const MOUNT: u32 = 100_005;

/// The transaction number of a call of MNT in version 3.
fn mount_call(message: &[u8]) -> Option<u32> {
    match read_call(message) {
        Ok(call) if call.program == MOUNT && call.version == 3 && call.procedure == 1 => {
            Some(call.xid)
        }
        _ => None,
    }
}

/// The handle of a result of MNT that is a success.
fn handle_of(results: &[u8]) -> Option<&[u8]>
    ensures { IfSome result (λ root. length root.now ≤ 64) }
{
    let mut reader = Reader::new(results);
    match reader.u32() {
        Ok(0) => {}
        _ => return None,
    }
    match reader.opaque(HANDLE_LIMIT as u32) {
        Ok(handle) if handle.len() <= HANDLE_LIMIT => Some(handle),
        _ => None,
    }
}

/// The handle of a reply to the call with this transaction number.
fn root_of(message: &[u8], xid: u32) -> Option<&[u8]>
    ensures { IfSome result (λ root. length root.now ≤ 64) }
{
    match read_reply(message) {
        Ok(reply) if reply.xid == xid => match reply.body {
            ReplyBody::Success(results) => handle_of(results),
            _ => None,
        },
        _ => None,
    }
}

/// A root handle, and the packet at which its reply stands.
#[derive(Drop)]
struct Mounted {
    at: u64,
    root: FileHandle,
}

/// The first of the replies that gives a handle to the call.
fn mounted_among(
    alloc: Global,
    replies: &[Found],
    xid: u32,
) -> Result<Option<Mounted>, AllocError> {
    for reply in replies {
        if let Some(root) = root_of(reply.message.as_slice(), xid) {
            return Ok(Some(Mounted {
                at: reply.at,
                root: FileHandle::from_slice(alloc, root)?,
            }));
        }
    }
    Ok(None)
}

/// The root handle that one way of a connection gives to a call of the other way.
fn mounted_between(
    alloc: Global,
    asked: &Direction<'_>,
    told: &Direction<'_>,
) -> Result<Option<Mounted>, AllocError> {
    let calls = way_of(alloc, 0, FoundKind::Call, asked)?;
    let replies = way_of(alloc, 0, FoundKind::Reply, told)?;
    for call in calls.found.as_slice() {
        let Some(xid) = mount_call(call.message.as_slice()) else {
            continue;
        };
        let mounted = mounted_among(alloc, replies.found.as_slice(), xid)?;
        if mounted.is_some() {
            return Ok(mounted);
        }
    }
    Ok(None)
}

/// The earlier one of two.
fn earlier(one: Option<Mounted>, other: Option<Mounted>) -> Option<Mounted> {
    match (one, other) {
        (Some(one), Some(other)) => Some(if other.at < one.at { other } else { one }),
        (Some(one), None) => Some(one),
        (None, other) => other,
    }
}

/// The root handle that the earliest reply gives, of some connections and whichever way it went.
pub fn root_in(
    alloc: Global,
    connections: &[Connection<'_>],
) -> Result<Option<FileHandle>, AllocError> {
    let mut first = None;
    for connection in connections {
        let (calls, replies) = (&connection.calls, &connection.replies);
        first = earlier(first, mounted_between(alloc, calls, replies)?);
        first = earlier(first, mounted_between(alloc, replies, calls)?);
    }
    match first {
        Some(Mounted { at: _, root }) => Ok(Some(root)),
        None => Ok(None),
    }
}
