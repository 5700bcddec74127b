//! Where events are in a history file.

use history_file::{FileFault, SeenEvent};
use history_lines::{BegunFile, UnreadEvents};
use std::alloc::{AllocError, Global};

/// An event, and where it is.
#[derive(Clone, Copy)]
pub(crate) struct FoundEvent<'a> {
    pub(crate) number: u64,
    /// The number of the last call up to it.
    pub(crate) calls: u64,
    /// The offset of its first byte in the file.
    pub(crate) offset: u64,
    pub(crate) event: SeenEvent<'a>,
}

/// What is looked for in a file.
#[derive(Clone, Copy)]
pub(crate) enum Sought {
    /// An event, by its number.
    Event(u64),
    /// The event of a call, by the call's number.
    Call(u64),
}

/// What was read of a file.
#[derive(Clone, Copy)]
pub(crate) enum Found<'a> {
    /// What is looked for.
    Event(FoundEvent<'a>),
    /// What is ahead of the first event can't be read.
    NoStart,
    /// Neither what is looked for nor an event after that of `number`, which ends at `offset`.
    End { number: u64, offset: u64 },
}

impl Sought {
    /// Whether an event is what is looked for.
    fn is(self, found: &FoundEvent<'_>) -> bool {
        match self {
            Sought::Event(number) => found.number == number,
            Sought::Call(number) => {
                found.calls == number && matches!(found.event, SeenEvent::Call { .. })
            }
        }
    }
}

/// The next event of a file, with what is unread behind it; none where there is none that can be read.
pub(crate) fn next_of<'a>(
    bytes: &[u8],
    unread: UnreadEvents<'a>,
) -> Option<(FoundEvent<'a>, UnreadEvents<'a>)> {
    if unread.left() == 0 {
        return None;
    }
    let mut behind = unread;
    let Ok(event) = behind.next() else {
        return None;
    };
    let found = FoundEvent {
        number: behind.read(),
        calls: behind.calls(),
        offset: (bytes.len() as u64).saturating_sub(unread.left_bytes()),
        event,
    };
    Some((found, behind))
}

/// Reads events up to the one that is looked for, or up to the first that can't be read.
fn found_behind<'a>(bytes: &'a [u8], begun: &BegunFile<'a>, sought: Sought) -> Found<'a> {
    let mut unread = begun.unread;
    for _ in 0..begun.unread.left() {
        let Some((found, behind)) = next_of(bytes, unread) else {
            break;
        };
        if sought.is(&found) {
            return Found::Event(found);
        }
        unread = behind;
    }
    Found::End {
        number: unread.read(),
        offset: (bytes.len() as u64).saturating_sub(unread.left_bytes()),
    }
}

/// Looks for an event in a history file.
pub(crate) fn find<'a>(
    alloc: Global,
    bytes: &'a [u8],
    sought: Sought,
) -> Result<Found<'a>, AllocError> {
    match BegunFile::of_file(alloc, bytes) {
        Ok(begun) => Ok(found_behind(bytes, &begun, sought)),
        Err(FileFault::NoMemory) => Err(AllocError),
        Err(_) => Ok(Found::NoStart),
    }
}
