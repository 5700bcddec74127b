//! The calls of a recording that wait for a reply.

use byteorder::{BigEndian, ByteOrder};
use indexmap::IndexMap;
use nfs_history::Event;
use std::alloc::{AllocError, Global};
use std::fmt;

/// The transaction number of a message: its first word.
pub fn transaction(message: &[u8]) -> u32 {
    if message.len() < 4 {
        0
    } else {
        BigEndian::read_u32(message)
    }
}

/// A lane that ended while calls on it waited for a reply.
#[derive(Clone, Copy)]
pub(crate) struct LeftLane {
    lane: u32,
    /// How many calls waited.
    calls: usize,
    /// The transaction number of one of them.
    xid: u32,
}

impl fmt::Display for LeftLane {
    fn fmt<W: fmt::Write>(&self, f: &mut fmt::Formatter<W>) -> fmt::Result {
        let LeftLane { lane, calls, xid } = *self;
        write!(
            f,
            "lane {lane} ended: calls without a reply {calls}, such as that of transaction {xid}"
        )
    }
}

/// The calls that wait, as far as a log was followed.
#[derive(Drop)]
pub(crate) struct Waiting {
    alloc: Global,
    /// Each by its lane and its transaction number.
    calls: IndexMap<(u32, u32), ()>,
    /// How many events were followed.
    events: usize,
}

impl Waiting {
    pub(crate) fn new(alloc: Global) -> Waiting {
        Waiting {
            alloc,
            calls: IndexMap::new(alloc),
            events: 0,
        }
    }

    /// A lane ends. What waited on it doesn't wait any more.
    fn end(&mut self, lane: u32) -> Result<Option<LeftLane>, AllocError> {
        let mut waited = Vec::new(self.alloc);
        for (of, xid) in self.calls.keys() {
            if *of == lane {
                waited.push(*xid)?;
            }
        }
        for xid in waited.iter() {
            self.calls.swap_remove(&(lane, *xid));
        }
        let calls = waited.len();
        Ok(
            waited.first().map(|xid| LeftLane {
                lane,
                calls,
                xid: *xid,
            }),
        )
    }

    /// Follows an event.
    fn follow_event(&mut self, event: &Event, left: &mut Vec<LeftLane>) -> Result<(), AllocError> {
        match event {
            Event::Call { lane, message } => {
                let xid = transaction(message.as_slice());
                self.calls.insert((*lane, xid), ())?;
            }
            Event::Reply { lane, message } => {
                let xid = transaction(message.as_slice());
                self.calls.swap_remove(&(*lane, xid));
            }
            Event::Close { lane } => {
                if let Some(lane) = self.end(*lane)? {
                    left.push(lane)?;
                }
            }
            // The lanes that a crash ends are closed ahead of it.
            Event::Crash => left.clear(),
        }
        Ok(())
    }

    /// Follows the events of a log behind those that were followed. The lanes that ended while calls waited, but for those that a crash
    /// ended.
    pub(crate) fn follow(&mut self, events: &[Event]) -> Result<Vec<LeftLane>, AllocError> {
        let mut left = Vec::new(self.alloc);
        if let Some(behind) = events.get(self.events..) {
            for event in behind {
                self.follow_event(event, &mut left)?;
            }
        }
        self.events = events.len();
        Ok(left)
    }
}
