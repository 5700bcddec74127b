//! What a recorder saw.

ghost use Rattle.std.specs.Prelude.{◌≡◌, IfOk};
ghost use Rattle.history_file.specs.Owning.{happened, all_happened, seen_event, all_seen};

use std::alloc::{AllocError, Global};
use std::marker::Model;

/// The bytes of a message, without record marking.
#[derive(Drop)]
pub struct Message {
    content: Vec<u8>,
}

impl Model for Message {
    ghost use Rattle.std.specs.Prelude.{List, ℕ};

    ghost Value = { List ℕ };

    ghost view = { λ m. m.content.items };
}

impl Message {
    /// The message of these bytes.
    pub fn from_slice(alloc: Global, bytes: &[u8]) -> Result<Message, AllocError>
        ensures { IfOk result (λ m. m ≡ bytes.now) }
    {
        Ok(Message {
            content: Vec::from_slice(alloc, bytes)?,
        })
    }

    /// Its bytes.
    pub fn as_slice(&self) -> &[u8]
        ensures { result.now ≡ self.now }
    {
        self.content.as_slice()
    }
}

/// What happened once.
#[derive(Drop)]
pub enum Event {
    /// A client sent a call on a lane, which is one connection.
    Call { lane: u32, message: Message },
    /// A client got a reply.
    Reply { lane: u32, message: Message },
    /// A connection was closed.
    Close { lane: u32 },
    /// The server went down, and came up again.
    Crash,
}

/// What happened once, with its message where it stands in a file or an event.
#[derive(Clone, Copy)]
pub enum SeenEvent<'a> {
    /// A client sent a call on a lane, which is one connection.
    Call { lane: u32, message: &'a [u8] },
    /// A client got a reply.
    Reply { lane: u32, message: &'a [u8] },
    /// A connection was closed.
    Close { lane: u32 },
    /// The server went down, and came up again.
    Crash,
}

impl Event {
    /// The event, with its message lent.
    pub fn as_seen(&self) -> SeenEvent<'_>
        ensures { seen_event result ≡ happened self.now }
    {
        match self {
            Event::Call { lane, message } => SeenEvent::Call {
                lane: *lane,
                message: message.as_slice(),
            },
            Event::Reply { lane, message } => SeenEvent::Reply {
                lane: *lane,
                message: message.as_slice(),
            },
            Event::Close { lane } => SeenEvent::Close { lane: *lane },
            Event::Crash => SeenEvent::Crash,
        }
    }

    /// The event, with a copy of its message.
    pub fn from_seen(alloc: Global, seen: &SeenEvent<'_>) -> Result<Event, AllocError>
        ensures { IfOk result (λ event. happened event ≡ seen_event seen.now) }
    {
        match seen {
            SeenEvent::Call { lane, message } => Ok(Event::Call {
                lane: *lane,
                message: Message::from_slice(alloc, *message)?,
            }),
            SeenEvent::Reply { lane, message } => Ok(Event::Reply {
                lane: *lane,
                message: Message::from_slice(alloc, *message)?,
            }),
            SeenEvent::Close { lane } => Ok(Event::Close { lane: *lane }),
            SeenEvent::Crash => Ok(Event::Crash),
        }
    }
}

/// The events, with their messages lent.
pub fn lend_events(alloc: Global, events: &[Event]) -> Result<Vec<SeenEvent<'_>>, AllocError>
    ensures { IfOk result (λ v. all_seen v.items ≡ all_happened events.now) }
{
    let mut seen = Vec::with_capacity(alloc, events.len())?;
    for event in events {
        let lent = event.as_seen();
        seen.push(lent)?;
    }
    Ok(seen)
}

/// The events, each with a copy of its message.
pub fn copy_events(alloc: Global, seen: &[SeenEvent<'_>]) -> Result<Vec<Event>, AllocError>
    ensures { IfOk result (λ v. all_happened v.items ≡ all_seen seen.now) }
{
    let mut events = Vec::with_capacity(alloc, seen.len())?;
    for event in seen {
        let copy = Event::from_seen(alloc, event)?;
        events.push(copy)?;
    }
    Ok(events)
}
