//! The events of one way of a connection: the records of its stream (RFC 5531, section 11).

ghost use Rattle.std.specs.Prelude.{◌≡◌, IfOk};
ghost use Rattle.capture_history.specs.Lanes.{AreEvents, AreMade};
ghost use Rattle.capture_history.specs.Inside.{AreEventsOf};

use crate::cursor::Cursor;
use crate::direction::Direction;
use crate::found::{Found, FoundKind};
use crate::stream::{Stream, stream_of};
use std::alloc::{AllocError, Global};
use xdr_records::{FeedFault, RecordFeed};

/// The events of one way, and where it ends.
#[derive(Drop)]
pub struct Way {
    pub found: Vec<Found>,
    /// The packet at which the stream ends by a gap.
    pub gap: Option<u64>,
    /// The packet with which the first byte of a record was known that is too long: no whole record ahead of it stands later.
    pub too_long: Option<u64>,
}

/// Takes the records that wait in a feed, which begin where the cursor stands, as events.
fn take_events(
    alloc: Global,
    lane: u32,
    kind: FoundKind,
    feed: &mut RecordFeed,
    cursor: &mut Cursor<'_>,
) -> Result<Vec<Found>, AllocError>
    ensures { IfOk result (λ found. AreMade lane kind feed.old.waiting found.items) }
{
    let mut found = Vec::new(alloc);
    while let Some(message) = feed.take() {
        let first = cursor.first();
        let known = cursor.pass();
        let at = if kind == FoundKind::Reply {
            first
        } else {
            known
        };
        let event = Found {
            lane,
            kind,
            message,
            at,
        };
        found.push(event)?;
    }
    Ok(found)
}

/// The records of a stream as events, in order. What is behind the last whole one is left out.
fn events_in(alloc: Global, lane: u32, kind: FoundKind, stream: &Stream) -> Result<Way, AllocError>
    ensures { IfOk result (λ way. AreEventsOf lane kind stream.now.bytes.items way.found.items) }
{
    let mut feed = RecordFeed::new(alloc);
    let is_too_long = match feed.feed(stream.bytes.as_slice()) {
        Ok(()) => false,
        Err(FeedFault::RecordTooLong) => true,
        Err(FeedFault::NoMemory) => return Err(AllocError),
    };
    let mut cursor = Cursor::new(stream.bytes.as_slice(), stream.parts.as_slice());
    let found = take_events(alloc, lane, kind, &mut feed, &mut cursor)?;
    let too_long = if is_too_long {
        Some(cursor.known())
    } else {
        None
    };
    Ok(Way {
        found,
        gap: stream.gap,
        too_long,
    })
}

/// The events of one way of a lane, in order: its records, as calls or as replies.
pub fn way_of(
    alloc: Global,
    lane: u32,
    kind: FoundKind,
    direction: &Direction<'_>,
) -> Result<Way, AllocError>
    ensures { IfOk result (λ way. AreEvents lane kind direction.now way.found.items) }
{
    let stream = stream_of(alloc, direction)?;
    let way = events_in(alloc, lane, kind, &stream)?;
    Ok(way)
}
