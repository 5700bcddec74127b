//! The calls of a recording that were never answered.

use crate::replies::procedure_of;
use history_file::Event;
use indexmap::IndexMap;
use nfs_relay::transaction;
use nfs3_types::Procedure;
use std::alloc::{AllocError, Global};

/// A call that got no reply.
#[derive(Clone, Copy)]
pub struct Unanswered {
    /// The lane of the call.
    pub lane: u32,
    /// Its transaction number.
    pub xid: u32,
    /// How many events there were ahead of it.
    pub begin: usize,
    /// How many events there were when its lane was closed, or in all.
    pub events: usize,
    /// How many changes were asked and made on its lane behind it, each behind the reply to the one before; none where it asks for a change
    /// itself, which may have to wait for the disk.
    pub overtakers: u64,
}

/// A call that waits for its reply.
#[derive(Clone, Copy)]
struct OpenCall {
    lane: u32,
    xid: u32,
    begin: usize,
    /// How many events there were before the first call of its lane and number, if that waits too.
    first: usize,
    /// Whether it changes what the server holds, so that its reply may wait for the disk.
    is_change: bool,
    /// How many changes had been made in turn on its lane.
    changes: u64,
}

/// The changes that were made in turn on a lane: each was asked behind the reply to the one before.
#[derive(Clone, Copy)]
struct Turn {
    changes: u64,
    /// Where the reply to the last of them stands.
    at: usize,
}

impl Turn {
    const NONE: Turn = Turn { changes: 0, at: 0 };
}

/// The calls that wait, and what is done on each lane.
#[derive(Drop)]
struct Lanes {
    open: IndexMap<u64, OpenCall>,
    turns: IndexMap<u32, Turn>,
    closed: IndexMap<u32, usize>,
}

/// A call of a lane, as one number.
fn key_of(lane: u32, xid: u32) -> u64 {
    u64::from(lane) << 32 | u64::from(xid)
}

/// Whether a call changes what the server holds, or has to have it on disk.
fn is_change(message: &[u8]) -> bool {
    match procedure_of(message) {
        Some(Procedure::Commit | Procedure::MkNod | Procedure::Link) => true,
        Some(procedure) => procedure.changes_the_tree(),
        None => false,
    }
}

impl Lanes {
    fn new(alloc: Global) -> Lanes {
        Lanes {
            open: IndexMap::new(alloc),
            turns: IndexMap::new(alloc),
            closed: IndexMap::new(alloc),
        }
    }

    /// What was done on a lane.
    fn turn(&self, lane: u32) -> Turn {
        self.turns.get(&lane).copied().unwrap_or(Turn::NONE)
    }

    /// A call comes, behind so many events.
    fn call(&mut self, lane: u32, message: &[u8], begin: usize) -> Result<(), AllocError> {
        let xid = transaction(message);
        let key = key_of(lane, xid);
        let first = match self.open.get(&key) {
            Some(call) => call.first,
            None => begin,
        };
        let call = OpenCall {
            lane,
            xid,
            begin,
            first,
            is_change: is_change(message),
            changes: self.turn(lane).changes,
        };
        self.open.insert(key, call)?;
        Ok(())
    }

    /// A reply comes, behind so many events.
    fn reply(&mut self, lane: u32, message: &[u8], at: usize) -> Result<(), AllocError> {
        let Some(call) = self.open.swap_remove(&key_of(lane, transaction(message))) else {
            return Ok(());
        };
        let turn = self.turn(lane);
        if call.is_change && (turn.changes == 0 || call.begin > turn.at) {
            let changes = turn.changes.saturating_add(1);
            self.turns.insert(lane, Turn { changes, at })?;
        }
        Ok(())
    }

    /// A lane is closed, behind so many events.
    fn close(&mut self, lane: u32, at: usize) -> Result<(), AllocError> {
        self.closed.insert(lane, at)?;
        Ok(())
    }

    /// An event comes, behind so many others.
    fn take(&mut self, event: &Event, at: usize) -> Result<(), AllocError> {
        match event {
            Event::Call { lane, message } => self.call(*lane, message.as_slice(), at),
            Event::Reply { lane, message } => self.reply(*lane, message.as_slice(), at),
            Event::Close { lane } => self.close(*lane, at),
            Event::Crash => Ok(()),
        }
    }

    /// These events come, the first of all.
    fn take_all(&mut self, events: &[Event]) -> Result<(), AllocError> {
        for (index, event) in events.iter().enumerate() {
            self.take(event, index)?;
        }
        Ok(())
    }

    /// The calls that wait, in the order in which they came.
    fn still_open(&self, alloc: Global) -> Result<Vec<OpenCall>, AllocError> {
        let mut calls = Vec::new(alloc);
        for call in self.open.values() {
            calls.push(*call)?;
        }
        calls.sort_unstable_by_key(|call| call.first);
        Ok(calls)
    }

    /// What is known of a call that is still open behind so many events.
    fn unanswered(&self, call: OpenCall, events: usize) -> Unanswered {
        let behind = self.turn(call.lane).changes.saturating_sub(call.changes);
        Unanswered {
            lane: call.lane,
            xid: call.xid,
            begin: call.begin,
            events: self.closed.get(&call.lane).copied().unwrap_or(events),
            // The first may have been asked ahead of it.
            overtakers: if call.is_change {
                0
            } else {
                behind.saturating_sub(1)
            },
        }
    }

    /// What is known of the calls that are still open behind so many events, in the order in which they came.
    fn all_unanswered(&self, alloc: Global, events: usize) -> Result<Vec<Unanswered>, AllocError> {
        let calls = self.still_open(alloc)?;
        let mut all = Vec::new(alloc);
        for call in calls.iter() {
            all.push(self.unanswered(*call, events))?;
        }
        Ok(all)
    }
}

/// The calls that got no reply, in the order in which they came.
pub fn unanswered_in(alloc: Global, events: &[Event]) -> Result<Vec<Unanswered>, AllocError> {
    let mut lanes = Lanes::new(alloc);
    lanes.take_all(events)?;
    lanes.all_unanswered(alloc, events.len())
}
