//! The bytes that are still to be sent on a connection.

ghost use Rattle.std.specs.Prelude.{◌≡◌, ◌≤◌, ◌+◌, ◌++◌, [], length, drop, OnOk, OnErr};
ghost use Rattle.history_file.specs.Event.Event.{call};
ghost use Rattle.xdr_records.specs.Record.{record_text};
ghost use Rattle.night_lanes.specs.Noting.{Gains, Stays};
ghost use Rattle.night_lanes.specs.Sending.{Sends};

use crate::notes::{Notes, Unnoted};
use std::alloc::Global;
use std::io::{ErrorKind, Write};
use std::marker::Model;
use xdr_records::{RECORD_LIMIT, frame};

/// The bytes that are still to be sent on a connection: frames of calls that are noted, the first perhaps without its front.
#[derive(Drop)]
pub struct Outgoing {
    bytes: Vec<u8>,
    /// How many of the bytes are sent.
    sent: usize,
}

impl Model for Outgoing {
    ghost use Rattle.std.specs.Prelude.{ℕ, List, ◌≤◌, length, drop};

    ghost Value = { List ℕ };

    ghost view = { λ outgoing. drop outgoing.sent outgoing.bytes.items };

    ghost invariant = { λ outgoing. outgoing.sent ≤ length outgoing.bytes.items };
}

/// A connection on which nothing can be sent any more.
#[derive(Clone, Copy)]
pub struct SendFault;

impl Outgoing {
    /// Nothing.
    pub fn new(alloc: Global) -> Outgoing
        ensures { result ≡ [] }
    {
        Outgoing {
            bytes: Vec::new(alloc),
            sent: 0,
        }
    }

    /// Has a call noted, and then puts its frame after the other bytes; or neither.
    pub fn queue<N: Notes>(
        &mut self,
        notes: &mut N,
        lane: u32,
        message: &[u8],
    ) -> Result<(), Unnoted>
        // What is to be sent is noted, and is the frame of what is noted.
        ensures noted { OnOk result (Gains (N.recording notes.old) (N.recording notes.new) (call lane message.now)) }
        ensures queued { OnOk result (self.new ≡ self.old ++ record_text message.now) }
        // What the log refuses isn't sent.
        ensures kept { OnErr result (self.new ≡ self.old) }
        ensures unnoted { OnErr result (Stays (N.recording notes.old) (N.recording notes.new)) }
    {
        if message.len() > RECORD_LIMIT {
            return Err(Unnoted::NoRoom);
        }
        let text = frame(*self.bytes.allocator(), message)?;
        self.bytes.reserve(text.len())?;
        notes.note_call(lane, message)?;
        self.bytes.extend_from_slice(text.as_slice()).unwrap();
        Ok(())
    }

    /// This number of bytes more is sent.
    fn pass(&mut self, count: usize)
        requires { count ≤ length self.old }
        ensures { self.new ≡ drop count self.old }
    {
        if count == self.bytes.len() - self.sent {
            self.bytes.clear();
            self.sent = 0;
        } else {
            self.sent += count;
        }
    }

    /// Sends a front of the bytes, all of them if the connection takes them in time.
    pub fn send<W: Write>(&mut self, writer: &mut W) -> Result<(), SendFault>
        ensures { Sends self.old self.new (W.contents writer.old) (W.contents writer.new) }
    {
        if self.bytes.is_empty() {
            return Ok(());
        }
        match writer.write(&self.bytes[self.sent..]) {
            Ok(0) => Err(SendFault),
            Ok(count) => {
                self.pass(count);
                Ok(())
            }
            Err(error) => match error.kind() {
                ErrorKind::Interrupted | ErrorKind::WouldBlock | ErrorKind::TimedOut => Ok(()),
                _ => Err(SendFault),
            },
        }
    }
}
