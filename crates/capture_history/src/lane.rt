//! The events of a lane, with the packets at which they stand.

ghost use Rattle.std.specs.Prelude.{◌≡◌, ◌++◌, OnOk, IfOk};
ghost use Rattle.std.specs.Option.{option_or};
ghost use Rattle.capture_history.specs.Lanes.{in_time, is_in_time, place_of_end, IsClosed, IsLane};

use crate::connection::Connection;
use crate::found::{Found, FoundKind};
use crate::notes::NoteKind;
use crate::way::{Way, way_of};
use std::alloc::{AllocError, Global};

/// Where a lane ends ahead of its connection's end, and why.
#[derive(Clone, Copy)]
pub struct LaneEnd {
    /// The index of a packet.
    pub at: u64,
    pub kind: NoteKind,
}

/// The earlier of two ends.
fn earlier(end: Option<LaneEnd>, at: Option<u64>, kind: NoteKind) -> Option<LaneEnd> {
    let Some(at) = at else {
        return end;
    };
    match end {
        Some(end) if end.at <= at => Some(end),
        _ => Some(LaneEnd { at, kind }),
    }
}

/// Where a lane ends, by what both ways lack.
fn end_of(calls: &Way, replies: &Way) -> Option<LaneEnd> {
    let end = earlier(None, calls.gap, NoteKind::CallGap);
    let end = earlier(end, replies.gap, NoteKind::ReplyGap);
    let end = earlier(end, calls.too_long, NoteKind::RecordTooLong);
    earlier(end, replies.too_long, NoteKind::RecordTooLong)
}

/// The packet at which a lane ends.
fn place_of(end: Option<LaneEnd>) -> Option<u64>
    ensures { result ≡ place_of_end end }
{
    match end {
        Some(end) => Some(end.at),
        None => None,
    }
}

/// Whether a place is no later than where its lane ends.
fn is_in_time(last: Option<u64>, at: u64) -> bool
    ensures { result ≡ is_in_time last at }
{
    match last {
        Some(last) => at <= last,
        None => true,
    }
}

/// Puts those events behind others that stand no later than where their lane ends.
fn put_in_time(
    found: &mut Vec<Found>,
    events: Vec<Found>,
    last: Option<u64>,
) -> Result<(), AllocError>
    ensures { OnOk result (found.new.items ≡ found.old.items ++ in_time last events.items) }
{
    for event in events {
        if is_in_time(last, event.at) {
            found.push(event)?;
        }
    }
    Ok(())
}

/// The last packet at which an event stands, from a place on.
fn last_from(found: &[Found], from: usize) -> u64 {
    let mut last = 0;
    for index in from..found.len() {
        last = found[index].at.max(last);
    }
    last
}

/// Puts the close of a lane, which ends at a packet, behind its events, which stand from a place on.
fn put_close(
    alloc: Global,
    found: &mut Vec<Found>,
    lane: u32,
    from: usize,
    closed: Option<u64>,
) -> Result<(), AllocError>
    ensures { OnOk result (IsClosed lane closed found.old.items found.new.items) }
{
    let Some(at) = closed else {
        return Ok(());
    };
    let close = Found {
        lane,
        kind: FoundKind::Close,
        message: Vec::new(alloc),
        at: at.max(last_from(found.as_slice(), from)),
    };
    found.push(close)?;
    Ok(())
}

/// The earlier of where a lane and its connection end.
fn closing(last: Option<u64>, closed: Option<u64>) -> Option<u64>
    ensures { result ≡ option_or last closed }
{
    match last {
        Some(at) => Some(at),
        None => closed,
    }
}

/// Puts the events of a lane behind others. Gives where the lane ends ahead of its connection's end, if it does.
pub fn put_lane(
    alloc: Global,
    found: &mut Vec<Found>,
    lane: u32,
    connection: &Connection<'_>,
) -> Result<Option<LaneEnd>, AllocError>
    ensures { IfOk result (λ end. IsLane lane connection.now (place_of_end end) found.old.items found.new.items) }
{
    let from = found.len();
    let calls = way_of(alloc, lane, FoundKind::Call, &connection.calls)?;
    let replies = way_of(alloc, lane, FoundKind::Reply, &connection.replies)?;
    let end = end_of(&calls, &replies);
    let last = place_of(end);
    put_in_time(found, calls.found, last)?;
    put_in_time(found, replies.found, last)?;
    put_close(alloc, found, lane, from, closing(last, connection.closed))?;
    Ok(end)
}
