//! The events with which an event is at fault: earlier ones of its lane, or the reply to a call.

use crate::places::{FoundEvent, next_of};
use history_file::SeenEvent;
use history_lines::BegunFile;

/// The lane of an event; none of a crash.
pub(crate) fn lane_of(event: &SeenEvent<'_>) -> Option<u32> {
    match event {
        SeenEvent::Call { lane, .. } | SeenEvent::Reply { lane, .. } | SeenEvent::Close { lane } =>
            { Some(*lane) }
        SeenEvent::Crash => None,
    }
}

/// The message of an event; empty where it has none.
pub(crate) fn message_of<'a>(event: &SeenEvent<'a>) -> &'a [u8] {
    match event {
        SeenEvent::Call { message, .. } => *message,
        SeenEvent::Reply { message, .. } => *message,
        SeenEvent::Close { .. } | SeenEvent::Crash => &[],
    }
}

/// The transaction number of a message, which is its first word (RFC 5531, section 9).
pub(crate) fn transaction_of(message: &[u8]) -> Option<u32> {
    match message {
        [a, b, c, d, ..] => Some(u32::from_be_bytes([*a, *b, *c, *d])),
        _ => None,
    }
}

/// Whether an event ends a lane: a close of it, or a crash where the lane was used.
fn ends(event: &SeenEvent<'_>, lane: Option<u32>, is_used: bool) -> bool {
    match event {
        SeenEvent::Crash => is_used,
        SeenEvent::Close { .. } => lane_of(event) == lane,
        SeenEvent::Call { .. } | SeenEvent::Reply { .. } => false,
    }
}

/// The number of the event that ended the lane of an event before it.
pub(crate) fn end_of_lane(
    bytes: &[u8],
    begun: &BegunFile<'_>,
    found: &FoundEvent<'_>,
) -> Option<u64> {
    let lane = lane_of(&found.event);
    let mut is_used = false;
    let mut unread = begun.unread;
    for _ in 1..found.number {
        let (other, behind) = next_of(bytes, unread)?;
        if ends(&other.event, lane, is_used) {
            return Some(other.number);
        }
        is_used = is_used || lane_of(&other.event) == lane;
        unread = behind;
    }
    None
}

/// Whether an event is a call on a lane with a transaction number.
fn is_call(event: &SeenEvent<'_>, lane: Option<u32>, number: u32) -> bool {
    match event {
        SeenEvent::Call { message, .. } => {
            lane_of(event) == lane && transaction_of(message) == Some(number)
        }
        _ => false,
    }
}

/// The number of the event of the last call with a transaction number that came on the lane of an event before it.
pub(crate) fn last_call(
    bytes: &[u8],
    begun: &BegunFile<'_>,
    found: &FoundEvent<'_>,
    number: u32,
) -> Option<u64> {
    let lane = lane_of(&found.event);
    let mut last = None;
    let mut unread = begun.unread;
    for _ in 1..found.number {
        let Some((other, behind)) = next_of(bytes, unread) else {
            break;
        };
        if is_call(&other.event, lane, number) {
            last = Some(other.number);
        }
        unread = behind;
    }
    last
}

/// Whether an event is a reply to a call, where it comes after it.
fn is_reply_to(event: &SeenEvent<'_>, call: &FoundEvent<'_>) -> bool {
    match event {
        SeenEvent::Reply { message, .. } => {
            lane_of(event) == lane_of(&call.event)
                && transaction_of(message) == transaction_of(message_of(&call.event))
        }
        _ => false,
    }
}

/// The reply to a call, where one came.
pub(crate) fn reply_to<'a>(
    bytes: &'a [u8],
    begun: &BegunFile<'a>,
    call: &FoundEvent<'_>,
) -> Option<FoundEvent<'a>> {
    let mut unread = begun.unread;
    for _ in 0..begun.unread.left() {
        let (other, behind) = next_of(bytes, unread)?;
        if other.number > call.number && is_reply_to(&other.event, call) {
            return Some(other);
        }
        unread = behind;
    }
    None
}
