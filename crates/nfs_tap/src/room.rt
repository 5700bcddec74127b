//! How much of a history's file a log leaves.

ghost use Rattle.std.specs.Prelude.{◌≡◌, ◌≤◌, ◌+◌, ◌*◌, ◌-◌, [], IsTrue, ◌↔◌, length};
ghost use Rattle.xdr_records.specs.Items.{padded};
ghost use Rattle.history_file.specs.Limits.{history_limit, event_limit};
ghost use Rattle.history_file.specs.Owning.{happened};
ghost use Rattle.history_file.specs.Writing.{event_text, file_text};
ghost use Rattle.nfs_tap.specs.Room.{closes};

use history_file::{EVENT_LIMIT, Event, HISTORY_LIMIT, Message};
use nfs3_types::FileHandle;

/// How many closes are to find room behind the last record.
const CLOSES: usize = 4_096;

/// The bytes of a file ahead of its events, but for the root handle: the magic, and two lengths.
const HEAD_SIZE: usize = 16;

/// The bytes of a call or a reply in a file, but for its message: its kind, its lane and its length.
const MESSAGE_HEAD_SIZE: usize = 12;

/// The bytes of a close in a file.
const CLOSE_SIZE: usize = 8;

/// The bytes of a crash in a file.
const CRASH_SIZE: usize = 4;

/// So many bytes with their padding.
fn padded(count: usize) -> usize
    requires { count ≤ 268435456 }
    ensures { result ≡ padded count }
{
    (count + 3) / 4 * 4
}

/// How many bytes of a file are left behind its head, ahead of the first event.
pub(crate) fn left_behind_head(root: &FileHandle) -> usize
    ensures { result ≡ history_limit - length (file_text root.now []) }
{
    HISTORY_LIMIT - (HEAD_SIZE + padded(root.as_slice().len()))
}

/// How many bytes of so many are left behind a message's event.
fn left_behind_message(left: usize, message: &Message) -> usize
    requires { left ≤ 268435456 }
    ensures { result ≡ left - (12 + padded (length message.now)) }
{
    let count = message.as_slice().len();
    if count > left {
        return 0;
    }
    left.saturating_sub(MESSAGE_HEAD_SIZE + padded(count))
}

/// How many bytes of so many are left behind an event.
pub(crate) fn left_behind(left: usize, event: &Event) -> usize
    requires { left ≤ 268435456 }
    ensures { result ≡ left - length (event_text (happened event.now)) }
{
    match event {
        Event::Call { message, .. } => left_behind_message(left, message),
        Event::Reply { message, .. } => left_behind_message(left, message),
        Event::Close { .. } => left.saturating_sub(CLOSE_SIZE),
        Event::Crash => left.saturating_sub(CRASH_SIZE),
    }
}

/// Whether a file with so many events, and so many bytes left, has room for a call or a reply of so many bytes, and the closes behind it.
pub(crate) fn has_room(events: usize, left: usize, count: usize) -> bool
    requires { left ≤ 268435456 }
    ensures { IsTrue result ↔ ((events + 1 + closes ≤ event_limit) × ((12 + padded count) + 8 * closes ≤ left)) }
{
    events < EVENT_LIMIT as usize - CLOSES
        && count <= HISTORY_LIMIT
        && MESSAGE_HEAD_SIZE + padded(count) + CLOSES * CLOSE_SIZE <= left
}
