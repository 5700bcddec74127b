//! Histories of requests, whose root has the handle 0.

use crate::requests::{Request, procedure, put_arguments, put_result, put_words};
use nfs_history::{Event, History, HistoryFault, Message, WriteFault, write_history};
use nfs3_types::FileHandle;
use std::alloc::{AllocError, Global};

/// What happened. A request has its lane and its transaction number.
#[derive(Clone, Copy)]
pub(crate) enum Happened {
    Asked(u32, u32, Request),
    Answered(u32, u32, Request),
    /// It is asked and answered.
    Done(u32, u32, Request),
    Closed(u32),
    Crashed,
}

/// The event of a call (RFC 5531, section 9).
fn asked(alloc: Global, lane: u32, xid: u32, request: Request) -> Result<Event, AllocError> {
    let mut bytes = Vec::new(alloc);
    let head = [xid, 0, 2, 100_003, 3, procedure(request), 0, 0, 0, 0];
    put_words(&mut bytes, &head)?;
    put_arguments(&mut bytes, request)?;
    let message = Message::from_slice(alloc, bytes.as_slice())?;
    Ok(Event::Call { lane, message })
}

/// The event of a reply.
pub(crate) fn answered(
    alloc: Global,
    lane: u32,
    xid: u32,
    request: Request,
) -> Result<Event, AllocError> {
    let mut bytes = Vec::new(alloc);
    put_words(&mut bytes, &[xid, 1, 0, 0, 0, 0])?;
    put_result(&mut bytes, request)?;
    let message = Message::from_slice(alloc, bytes.as_slice())?;
    Ok(Event::Reply { lane, message })
}

/// Puts the events of what happened after others.
fn put_events(
    alloc: Global,
    events: &mut Vec<Event>,
    happened: Happened,
) -> Result<(), AllocError> {
    match happened {
        Happened::Asked(lane, xid, request) => events.push(asked(alloc, lane, xid, request)?)?,
        Happened::Answered(lane, xid, request) => {
            events.push(answered(alloc, lane, xid, request)?)?
        }
        Happened::Done(lane, xid, request) => {
            events.push(asked(alloc, lane, xid, request)?)?;
            events.push(answered(alloc, lane, xid, request)?)?;
        }
        Happened::Closed(lane) => events.push(Event::Close { lane })?,
        Happened::Crashed => events.push(Event::Crash)?,
    }
    Ok(())
}

fn events(alloc: Global, list: &[Happened]) -> Result<Vec<Event>, AllocError> {
    let mut events = Vec::new(alloc);
    for happened in list {
        put_events(alloc, &mut events, *happened)?;
    }
    Ok(events)
}

/// The history that is built of these.
pub(crate) fn built(alloc: Global, list: &[Happened]) -> Result<History, HistoryFault> {
    let root = FileHandle::from_slice(alloc, &[0])?;
    History::build(alloc, root, events(alloc, list)?)
}

/// The history file of these.
pub(crate) fn file(alloc: Global, list: &[Happened]) -> Result<Vec<u8>, WriteFault> {
    let events = events(alloc, list)?;
    write_history(alloc, &[0], events.as_slice())
}
