//! What went wrong on connections that are relayed, beside what the log shows.

use nfs_tap::PumpEnd;
use std::alloc::Global;

/// A lane that the server ended before its client did, and before the recording did.
#[derive(Clone, Copy)]
pub struct ServerEnd {
    pub lane: u32,
    /// How many events were noted by then.
    pub events: usize,
}

/// A lane that ended since a record on it wasn't noted.
#[derive(Clone, Copy, PartialEq, Eq)]
pub struct Refused {
    pub lane: u32,
    /// Whether the server sent the record.
    pub is_of_server: bool,
    /// Why it wasn't noted: `RecordTooLong`, or `LogFault`.
    pub end: PumpEnd,
}

/// What went wrong, in the order in which it was seen.
#[derive(Drop)]
pub struct Health {
    ends: Vec<ServerEnd>,
    refused: Vec<Refused>,
    /// The lanes that this side ended, or the client.
    cut: Vec<u32>,
    /// How many connections the server didn't take.
    untaken: u64,
    /// How many connections of clients weren't served.
    unserved: u64,
    /// How many orders were missed.
    missed: u64,
    /// How much more there was, for which memory wasn't there.
    more: u64,
}

impl Health {
    /// Nothing went wrong yet.
    pub fn new(alloc: Global) -> Health {
        Health {
            ends: Vec::new(alloc),
            refused: Vec::new(alloc),
            cut: Vec::new(alloc),
            untaken: 0,
            unserved: 0,
            missed: 0,
            more: 0,
        }
    }

    /// The lanes that the server ended first.
    pub fn ends(&self) -> &[ServerEnd] {
        self.ends.as_slice()
    }

    /// The lanes that ended since a record wasn't noted.
    pub fn refused(&self) -> &[Refused] {
        self.refused.as_slice()
    }

    /// The lanes that ended while replies could still come, and not by the server: since the recording ended, or the client was gone.
    pub fn cut(&self) -> &[u32] {
        self.cut.as_slice()
    }

    /// How many connections ended since the server took none in time.
    pub fn untaken(&self) -> u64 {
        self.untaken
    }

    /// How many connections of clients weren't served: too many were open, or the system gave no thread or no file for one. Where it gives
    /// none for a while, that counts once.
    pub fn unserved(&self) -> u64 {
        self.unserved
    }

    /// How many orders weren't understood, or couldn't be read.
    pub fn missed(&self) -> u64 {
        self.missed
    }

    /// How much more went wrong that memory wasn't there for.
    pub fn more(&self) -> u64 {
        self.more
    }

    /// The server ended a lane first.
    pub(crate) fn note_end(&mut self, end: ServerEnd) {
        if self.ends.push(end).is_err() {
            self.more = self.more.saturating_add(1);
        }
    }

    /// A lane ended while replies could still come, and not by the server.
    pub(crate) fn note_cut(&mut self, lane: u32) {
        if self.cut.push(lane).is_err() {
            self.more = self.more.saturating_add(1);
        }
    }

    /// The server took no connection in time.
    pub(crate) fn note_untaken(&mut self) {
        self.untaken = self.untaken.saturating_add(1);
    }

    /// A connection of a client isn't served.
    pub(crate) fn note_unserved(&mut self) {
        self.unserved = self.unserved.saturating_add(1);
    }

    /// An order isn't understood.
    pub(crate) fn note_missed(&mut self) {
        self.missed = self.missed.saturating_add(1);
    }

    /// A lane's pump ended, of the records of its client or of the server.
    pub(crate) fn note_pump(&mut self, lane: u32, is_of_server: bool, end: PumpEnd) {
        if !matches!(end, PumpEnd::RecordTooLong | PumpEnd::LogFault(_)) {
            return;
        }
        let refused = Refused {
            lane,
            is_of_server,
            end,
        };
        if self.refused.push(refused).is_err() {
            self.more = self.more.saturating_add(1);
        }
    }
}
