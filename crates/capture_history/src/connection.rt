//! A connection: its two ends, and what was seen each way.

use crate::direction::Direction;
use packet_layers::{Endpoint, Segment};
use std::alloc::{AllocError, Global};

/// A connection.
#[derive(Drop)]
pub struct Connection<'a> {
    /// Where its calls come from.
    pub client: Endpoint,
    /// What the client sent.
    pub calls: Direction<'a>,
    /// What the server sent.
    pub replies: Direction<'a>,
    /// The index of the packet that ended it: a RST, or the second FIN.
    pub closed: Option<u64>,
}

impl<'a> Connection<'a> {
    /// A connection of which nothing was seen.
    pub fn new(alloc: Global, client: Endpoint) -> Connection<'a> {
        Connection {
            client,
            calls: Direction::new(alloc),
            replies: Direction::new(alloc),
            closed: None,
        }
    }

    /// Whether the segment begins another connection between the same ends: by its SYN, where this one has ended or began elsewhere.
    pub fn is_over_by(&self, segment: &Segment<'_>) -> bool {
        if !segment.syn {
            return false;
        }
        let direction = if segment.source == self.client {
            &self.calls
        } else {
            &self.replies
        };
        if direction.has_begun {
            return direction.first != segment.sequence.wrapping_add(1);
        }
        self.closed.is_some()
    }

    /// Whether one way alone was captured.
    pub fn is_one_way(&self) -> bool {
        let (calls, replies) = (&self.calls, &self.replies);
        (!calls.payloads.is_empty() && !replies.has_begun)
            || (!replies.payloads.is_empty() && !calls.has_begun)
    }

    /// Whether it began ahead of the capture: neither SYN was captured.
    pub fn has_no_beginning(&self) -> bool {
        !self.calls.has_syn && !self.replies.has_syn
    }

    /// Takes a segment of the packet of this index.
    pub fn put(&mut self, packet: u64, segment: &Segment<'a>) -> Result<(), AllocError> {
        if segment.source == self.client {
            self.calls.put(packet, segment)?;
        } else {
            self.replies.put(packet, segment)?;
        }
        let has_ended = segment.reset || (self.calls.has_ended && self.replies.has_ended);
        if has_ended && self.closed.is_none() {
            self.closed = Some(packet);
        }
        Ok(())
    }
}
