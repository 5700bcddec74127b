//! What a recorder saw so far.

ghost use Rattle.std.specs.Prelude.{◌≡◌, [], IsTrue, ◌↔◌};
ghost use Rattle.tree_starts.specs.Head.{plain_head};
ghost use Rattle.history_file.specs.Event.Event.{call, reply, close, crash};
ghost use Rattle.history_file.specs.Owning.{happened, seen_event, all_happened};
ghost use Rattle.nfs_history.specs.Standing.{EachMayFollow};
ghost use Rattle.nfs_tap.specs.Noting.{Notes};
ghost use Rattle.nfs_tap.specs.Room.{HasRoom};

use crate::fault::NoteFault;
use crate::room::{has_room, left_behind, left_behind_head};
use history_file::{Event, SeenEvent};
use nfs_history::OpenCalls;
use nfs3_types::FileHandle;
use std::alloc::Global;
use std::marker::Model;

/// What a recorder saw so far: events of which each may follow those before it, so that they are a history's.
#[derive(Drop)]
pub struct TapLog {
    root: FileHandle,
    events: Vec<Event>,
    /// What of the events decides whether another may follow.
    known: OpenCalls,
    /// How many bytes of a history's file are left.
    left: usize,
}

impl Model for TapLog {
    ghost use Rattle.tree_starts.specs.Head.{plain_head};
    ghost use Rattle.history_file.specs.Event.{Recording};
    ghost use Rattle.history_file.specs.Owning.{all_happened};
    ghost use Rattle.nfs_tap.specs.Keeping.{IsKept};

    ghost Value = { Recording };

    ghost view = { λ log. record { head = plain_head log.root; events = all_happened log.events.items } };

    // Its events are a history's.
    ghost invariant = { λ log. IsKept (record { head = plain_head log.root; events = all_happened log.events.items }) log.known log.left };
}

impl TapLog {
    /// The log of a server, ahead of the first event. The root handle is the one that the clients mount.
    pub fn new(alloc: Global, root: FileHandle) -> TapLog
        ensures { result ≡ record { head = plain_head root; events = [] } }
    {
        let left = left_behind_head(&root);
        TapLog {
            root,
            events: Vec::new(alloc),
            known: OpenCalls::new(alloc),
            left,
        }
    }

    /// Puts an event behind the others, if it may follow. Nothing is copied.
    pub fn note_event(&mut self, event: Event) -> Result<(), NoteFault>
        ensures { Notes self.old (happened event) result self.new }
    {
        let seen = event.as_seen();
        let number = self.events.len() as u64 + 1;
        if let Some(fault) = self.known.fault_of(number, &seen) {
            return Err(NoteFault::from(fault));
        }
        let left = left_behind(self.left, &event);
        self.events.reserve(1)?;
        self.known.follow(&seen)?;
        self.events.push(event).unwrap();
        self.left = left;
        Ok(())
    }

    // What allocates the events.
    fn alloc(&self) -> Global {
        *self.events.allocator()
    }

    // Puts a copy of an event behind the others, if it may follow.
    fn note(&mut self, seen: &SeenEvent<'_>) -> Result<(), NoteFault>
        ensures { Notes self.old (seen_event seen.now) result self.new }
    {
        match Event::from_seen(self.alloc(), seen) {
            Ok(event) => self.note_event(event),
            Err(error) => Err(NoteFault::from(error)),
        }
    }

    /// Notes that a client sent a call. The message, without record marking, is copied.
    pub fn note_call(&mut self, lane: u32, message: &[u8]) -> Result<(), NoteFault>
        ensures { Notes self.old (call lane message.now) result self.new }
    {
        self.note(&SeenEvent::Call { lane, message })
    }

    /// Notes that a client got a reply. The message, without record marking, is copied.
    pub fn note_reply(&mut self, lane: u32, message: &[u8]) -> Result<(), NoteFault>
        ensures { Notes self.old (reply lane message.now) result self.new }
    {
        self.note(&SeenEvent::Reply { lane, message })
    }

    /// Notes that a connection was closed.
    pub fn note_close(&mut self, lane: u32) -> Result<(), NoteFault>
        ensures { Notes self.old (close lane) result self.new }
    {
        self.note(&SeenEvent::Close { lane })
    }

    /// Notes that the server went down, and came up again.
    pub fn note_crash(&mut self) -> Result<(), NoteFault>
        ensures { Notes self.old crash result self.new }
    {
        self.note(&SeenEvent::Crash)
    }

    /// Whether the file of the log stays within a history's limits, 1,000,000 events and 268,435,456 bytes, with a call or a reply
    /// of so many bytes and 4,096 closes behind it.
    pub fn has_room(&self, count: usize) -> bool
        ensures { IsTrue result ↔ HasRoom self.now count }
    {
        has_room(self.events.len(), self.left, count)
    }

    /// The handle of the root directory.
    pub fn root(&self) -> &FileHandle
        ensures { result.now ≡ self.now.head.root }
    {
        &self.root
    }

    /// What was noted, in order.
    pub fn events(&self) -> &[Event]
        ensures shown { all_happened result.now ≡ self.now.events }
        // They are a history's: each may follow those before it.
        ensures follow { EachMayFollow [] self.now.events }
    {
        self.events.as_slice()
    }
}
