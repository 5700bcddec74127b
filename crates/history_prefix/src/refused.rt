//! How many of the first events of a recording are a history, and which calls have the rest of it refused.

use history_file::{Event, SeenEvent};
use indexmap::IndexMap;
use nfs_history::{History, HistoryFault};
use nfs3_types::FileHandle;
use std::alloc::{AllocError, Global};

/// A call that has a recording refused, whatever comes later.
#[derive(Clone, Copy)]
pub struct RefusedCall {
    /// Its number, from 1.
    pub call: u64,
    /// The number of the event that sent it, from 1.
    pub event: u64,
    /// Why, with its number: the fault that `check` names where no earlier call is at fault.
    pub fault: HistoryFault,
}

/// A call that no reply has come to.
#[derive(Drop)]
struct OpenCall {
    sent: Sent,
    message: Event,
}

/// When a call was sent, and what it is without a reply.
#[derive(Clone, Copy)]
struct Sent {
    call: u64,
    event: u64,
    /// How many events the front had.
    front: u64,
    /// Why a history in which it stays open is refused.
    fault: Option<HistoryFault>,
}

/// The transaction number of a message: its first four bytes.
fn transaction_of(message: &[u8]) -> u32 {
    match message {
        [a, b, c, d, ..] => u32::from_be_bytes([*a, *b, *c, *d]),
        _ => 0,
    }
}

/// Why the history of these events is refused, if it is.
fn fault_of(alloc: Global, events: Vec<Event>) -> Result<Option<HistoryFault>, AllocError> {
    let root = FileHandle::from_slice(alloc, b"".as_slice())?;
    match History::build(alloc, root, events) {
        Ok(_) => Ok(None),
        Err(HistoryFault::NoMemory) => Err(AllocError),
        Err(fault) => Ok(Some(fault)),
    }
}

/// Why a history of this call alone is refused, if it is.
fn fault_alone(alloc: Global, call: &SeenEvent<'_>) -> Result<Option<HistoryFault>, AllocError> {
    let mut events = Vec::new(alloc);
    events.push(Event::from_seen(alloc, call)?)?;
    fault_of(alloc, events)
}

/// Why a history of this call and its reply is refused, if it is.
fn fault_answered(
    alloc: Global,
    call: Event,
    reply: &SeenEvent<'_>,
) -> Result<Option<HistoryFault>, AllocError> {
    let mut events = Vec::new(alloc);
    events.push(call)?;
    events.push(Event::from_seen(alloc, reply)?)?;
    fault_of(alloc, events)
}

/// A fault of the only call of a history, as that of the call with a number.
fn numbered(fault: HistoryFault, call: u64) -> HistoryFault {
    match fault {
        HistoryFault::Sealed(_) => HistoryFault::Sealed(call),
        HistoryFault::BadArgs(_) => HistoryFault::BadArgs(call),
        HistoryFault::BadResult(_) => HistoryFault::BadResult(call),
        HistoryFault::Outside { call: _, which } => HistoryFault::Outside { call, which },
        fault => fault,
    }
}

impl Sent {
    /// The call, refused for this.
    fn refused(&self, fault: HistoryFault) -> RefusedCall {
        RefusedCall {
            call: self.call,
            event: self.event,
            fault: numbered(fault, self.call),
        }
    }
}

/// Follows the events of a recording, of which each may follow those before it: which calls have it refused, and how many of its first events are a history that ends before the first of them was sent.
///
/// It holds a copy of each call that is open. A LINK, as an example, has a history refused while it is open, and isn't refused where it fails.
#[derive(Drop)]
pub struct Front {
    alloc: Global,
    open: IndexMap<(u32, u32), OpenCall>,
    calls: u64,
    events: u64,
    /// How many of the open calls have a history refused in which they stay open.
    hindering: u64,
    kept: u64,
    is_over: bool,
}

impl Front {
    /// Before the first event.
    pub fn new(alloc: Global) -> Front {
        Front {
            alloc,
            open: IndexMap::new(alloc),
            calls: 0,
            events: 0,
            hindering: 0,
            kept: 0,
            is_over: false,
        }
    }

    /// How many of the first events are a history that ends before the first refused call was sent: the most.
    pub fn kept(&self) -> u64 {
        self.kept
    }

    /// How many events were taken.
    pub fn events(&self) -> u64 {
        self.events
    }

    /// Takes a call.
    fn take_call(
        &mut self,
        lane: u32,
        message: &[u8],
        event: &SeenEvent<'_>,
    ) -> Result<(), AllocError> {
        let fault = fault_alone(self.alloc, event)?;
        let sent = Sent {
            call: self.calls.saturating_add(1),
            event: self.events.saturating_add(1),
            front: self.kept,
            fault,
        };
        let open = OpenCall {
            sent,
            message: Event::from_seen(self.alloc, event)?,
        };
        self.open.insert((lane, transaction_of(message)), open)?;
        self.calls = sent.call;
        if fault.is_some() {
            self.hindering = self.hindering.saturating_add(1);
        }
        Ok(())
    }

    /// Takes a reply. The call that it answers, where that is refused.
    fn take_reply(
        &mut self,
        lane: u32,
        message: &[u8],
        event: &SeenEvent<'_>,
    ) -> Result<Option<RefusedCall>, AllocError> {
        let Some(open) = self.open.swap_remove(&(lane, transaction_of(message))) else {
            return Ok(None);
        };
        let OpenCall { sent, message } = open;
        if sent.fault.is_some() {
            self.hindering = self.hindering.saturating_sub(1);
        }
        match fault_answered(self.alloc, message, event)? {
            Some(fault) => Ok(Some(self.refuse(&sent, fault))),
            None => Ok(None),
        }
    }

    /// A call is refused: the front ends before it was sent.
    fn refuse(&mut self, sent: &Sent, fault: HistoryFault) -> RefusedCall {
        self.is_over = true;
        self.kept = self.kept.min(sent.front);
        sent.refused(fault)
    }

    /// The first open call that has a history refused, of those on a lane, or on any.
    fn hindering_on(&self, lane: Option<u32>) -> Option<(u32, u32)> {
        let mut first: Option<(u64, (u32, u32))> = None;
        for (key, open) in self.open.iter() {
            let is_there = lane.is_none() || lane == Some(key.0);
            let is_first = first.map_or(true, |(call, _)| open.sent.call < call);
            if is_there && is_first && open.sent.fault.is_some() {
                first = Some((open.sent.call, *key));
            }
        }
        first.map(|(_, key)| key)
    }

    /// Takes out the first open call that is refused where a lane ends here, or all do, if there is one.
    fn refuse_open(&mut self, lane: Option<u32>) -> Option<RefusedCall> {
        if self.hindering == 0 {
            return None;
        }
        let key = self.hindering_on(lane)?;
        let OpenCall { sent, message: _ } = self.open.swap_remove(&key)?;
        self.hindering = self.hindering.saturating_sub(1);
        let fault = sent.fault?;
        Some(self.refuse(&sent, fault))
    }

    /// Takes the next event. A call that has the recording refused from now on, where there is one.
    pub fn take(&mut self, event: &SeenEvent<'_>) -> Result<Option<RefusedCall>, AllocError> {
        let refused = match event {
            SeenEvent::Call { lane, message } => {
                self.take_call(*lane, message, event)?;
                None
            }
            SeenEvent::Reply { lane, message } => self.take_reply(*lane, message, event)?,
            SeenEvent::Close { lane } => self.refuse_open(Some(*lane)),
            SeenEvent::Crash => self.refuse_open(None),
        };
        self.events = self.events.saturating_add(1);
        if self.hindering == 0 && !self.is_over {
            self.kept = self.events;
        }
        Ok(refused)
    }

    /// The next call that has the recording refused since it ends here, while the call is open.
    pub fn end(&mut self) -> Option<RefusedCall> {
        self.refuse_open(None)
    }
}

/// How many of these events, of which each may follow those before it, are a history that ends before the first refused call was sent.
pub fn front_of(alloc: Global, events: &[SeenEvent<'_>]) -> Result<u64, AllocError> {
    let mut front = Front::new(alloc);
    for event in events {
        front.take(event)?;
    }
    Ok(front.kept())
}
