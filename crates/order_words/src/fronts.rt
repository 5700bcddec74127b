//! The first events of a history file, as a file.

use history_file::FileFault;
use history_lines::{BegunFile, UnreadEvents};
use std::alloc::{AllocError, Global};

/// How many bytes the number of events has, which is ahead of the first event.
const COUNT_BYTES: u64 = 4;

/// What is unread behind so many events; none where there are fewer that can be read.
fn behind<'a>(unread: UnreadEvents<'a>, events: u32) -> Option<UnreadEvents<'a>> {
    let mut unread = unread;
    for _ in 0..events {
        if unread.left() == 0 {
            return None;
        }
        let Ok(_) = unread.next() else {
            return None;
        };
    }
    Some(unread)
}

/// A file of what is ahead of the number of events, of this number, and of these events.
fn joined(alloc: Global, ahead: &[u8], number: u32, events: &[u8]) -> Result<Vec<u8>, AllocError> {
    let mut file = Vec::from_slice(alloc, ahead)?;
    file.extend_from_slice(number.to_be_bytes().as_slice())?;
    file.extend_from_slice(events)?;
    Ok(file)
}

/// The bytes of a file between two offsets from its end.
fn between(bytes: &[u8], left_first: u64, left_last: u64) -> Option<&[u8]> {
    let length = bytes.len() as u64;
    let first = length.checked_sub(left_first)?;
    let last = length.checked_sub(left_last)?;
    bytes.get(first as usize..last as usize)
}

/// The same of a file of which what is ahead of its events was read.
fn front_of(
    alloc: Global,
    bytes: &[u8],
    begun: &BegunFile<'_>,
    events: u32,
) -> Result<Option<Vec<u8>>, AllocError> {
    let first = begun.unread.left_bytes();
    let Some(end) = behind(begun.unread, events) else {
        return Ok(None);
    };
    let ahead = between(bytes, bytes.len() as u64, first.saturating_add(COUNT_BYTES));
    let kept = between(bytes, first, end.left_bytes());
    match (ahead, kept) {
        (Some(ahead), Some(kept)) => Ok(Some(joined(alloc, ahead, events, kept)?)),
        _ => Ok(None),
    }
}

/// The file of the first events of a history, and of no more: calls that are open then have no reply in it. None where the history has
/// fewer events, or the bytes aren't those of one.
pub fn events_front(
    alloc: Global,
    bytes: &[u8],
    events: u32,
) -> Result<Option<Vec<u8>>, AllocError> {
    match BegunFile::of_file(alloc, bytes) {
        Ok(begun) => front_of(alloc, bytes, &begun, events),
        Err(FileFault::NoMemory) => Err(AllocError),
        Err(_) => Ok(None),
    }
}
