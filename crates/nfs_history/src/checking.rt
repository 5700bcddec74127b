//! Whether the events of a recording may follow one another.

ghost use Rattle.std.specs.Prelude.{◌+◌, ◌<◌, ◌^◌, ◌≡◌, false, [], IsOk, OnOk, OnErr, IfOk};
ghost use Rattle.std.specs.HashMap.{get};
ghost use Rattle.history_file.specs.Event.Event.{call, reply, crash};
ghost use Rattle.history_file.specs.Owning.{seen_event, all_seen};
ghost use Rattle.nfs_history.specs.Answers.{IsErrorOf};
ghost use Rattle.nfs_history.specs.Calls.{xid_of};
ghost use Rattle.nfs_history.specs.FirstFault.{FirstFaultOf};
ghost use Rattle.nfs_history.specs.Matching.{same_key};
ghost use Rattle.nfs_history.specs.Standing.{CanBeCall, CanBeReply};
ghost use Rattle.nfs_history.specs.Checking.{is_known_closed, known_state, Knows, IsFaultBehind, KnowsOneMore, KnowsAsMuch, AreKnownToFollow};

use crate::fault::{EventFault, HistoryFault};
use crate::matching::transaction;
use history_file::SeenEvent;
use indexmap::IndexMap;
use rpc_reader::{read_call, read_reply};
use std::alloc::{AllocError, Global};

/// How a lane was last used.
#[derive(Clone, Copy)]
pub enum LaneUse {
    /// By a call or a reply, in this era.
    InEra(u64),
    /// By its close, in this era.
    Closed(u64),
}

/// Whether events may still come on a lane.
#[derive(Clone, Copy)]
pub enum LaneState {
    /// They may.
    Open,
    /// It was used in an era that has ended.
    EraOver,
    /// It was closed in the era now.
    Closed,
}

/// What of the events so far decides whether another may follow.
#[derive(Drop)]
pub struct OpenCalls {
    /// The calls that are unanswered, each by its lane and transaction number, with how many calls came before it. Those of
    /// an era that has ended stay: their lanes are closed.
    unanswered: IndexMap<(u32, u32), u64>,
    /// How many calls there are.
    calls: u64,
    /// The lanes with an event.
    lanes: IndexMap<u32, LaneUse>,
    /// The era, from 1 on.
    era: u64,
}

impl OpenCalls {
    /// Ahead of the first event.
    pub fn new(alloc: Global) -> OpenCalls
        ensures { Knows result [] }
    {
        OpenCalls {
            unanswered: IndexMap::new(alloc),
            calls: 0,
            lanes: IndexMap::new(alloc),
            era: 1,
        }
    }

    /// Whether a lane is closed: by its close, or since it was last used in an era that has ended.
    fn is_closed(&self, lane: u32) -> bool
        ensures { result ≡ is_known_closed self.now lane }
    {
        match self.lanes.get(&lane).copied() {
            None => false,
            Some(LaneUse::Closed(_)) => true,
            Some(LaneUse::InEra(era)) => era != self.era,
        }
    }

    /// How a lane stands.
    pub(crate) fn lane(&self, lane: u32) -> LaneState
        ensures { result ≡ known_state self.now lane }
    {
        match self.lanes.get(&lane).copied() {
            None => LaneState::Open,
            Some(LaneUse::Closed(era)) if era == self.era => LaneState::Closed,
            Some(LaneUse::InEra(era)) if era == self.era => LaneState::Open,
            Some(_) => LaneState::EraOver,
        }
    }

    /// Why a call whose message can be read may not come next on a lane that isn't closed, as event `number`.
    fn fault_of_xid_in_use(&self, number: u64, lane: u32, message: &[u8]) -> Option<EventFault>
        requires lane { is_known_closed self.now lane ≡ false }
        requires message { CanBeCall message.now }
        ensures { IsFaultBehind self.now number (call lane message.now) result }
    {
        if self.unanswered.contains_key(&(lane, transaction(message))) {
            return Some(EventFault::XidInUse(number));
        }
        None
    }

    /// Why a reply whose message can be read may not come next on a lane that isn't closed, as event `number`.
    fn fault_of_no_such_call(&self, number: u64, lane: u32, message: &[u8]) -> Option<EventFault>
        requires lane { is_known_closed self.now lane ≡ false }
        requires message { CanBeReply message.now }
        ensures { IsFaultBehind self.now number (reply lane message.now) result }
    {
        if !self.unanswered.contains_key(&(lane, transaction(message))) {
            return Some(EventFault::NoSuchCall(number));
        }
        None
    }

    /// Why a call may not come next, as event `number`.
    fn fault_of_call(&self, number: u64, lane: u32, message: &[u8]) -> Option<EventFault>
        ensures { IsFaultBehind self.now number (call lane message.now) result }
    {
        if self.is_closed(lane) {
            return Some(EventFault::LaneClosed(number));
        }
        if read_call(message).is_err() {
            return Some(EventFault::BadRpc(number));
        }
        self.fault_of_xid_in_use(number, lane, message)
    }

    /// Why a call whose message was read already may not come next, as event `number`.
    pub(crate) fn fault_of_read_call(
        &self,
        number: u64,
        lane: u32,
        message: &[u8],
    ) -> Option<EventFault>
        requires { CanBeCall message.now }
        ensures { IsFaultBehind self.now number (call lane message.now) result }
    {
        if self.is_closed(lane) {
            return Some(EventFault::LaneClosed(number));
        }
        self.fault_of_xid_in_use(number, lane, message)
    }

    /// Why a reply may not come next, as event `number`.
    fn fault_of_reply(&self, number: u64, lane: u32, message: &[u8]) -> Option<EventFault>
        ensures { IsFaultBehind self.now number (reply lane message.now) result }
    {
        if self.is_closed(lane) {
            return Some(EventFault::LaneClosed(number));
        }
        if read_reply(message).is_err() {
            return Some(EventFault::BadRpc(number));
        }
        self.fault_of_no_such_call(number, lane, message)
    }

    /// Why a reply whose message was read already may not come next, as event `number`.
    pub(crate) fn fault_of_read_reply(
        &self,
        number: u64,
        lane: u32,
        message: &[u8],
    ) -> Option<EventFault>
        requires { CanBeReply message.now }
        ensures { IsFaultBehind self.now number (reply lane message.now) result }
    {
        if self.is_closed(lane) {
            return Some(EventFault::LaneClosed(number));
        }
        self.fault_of_no_such_call(number, lane, message)
    }

    /// Why event `number` may not come next.
    pub fn fault_of(&self, number: u64, event: &SeenEvent<'_>) -> Option<EventFault>
        ensures { IsFaultBehind self.now number (seen_event event.now) result }
    {
        match event {
            SeenEvent::Call { lane, message } => self.fault_of_call(number, *lane, *message),
            SeenEvent::Reply { lane, message } => self.fault_of_reply(number, *lane, *message),
            SeenEvent::Close { lane } => {
                if self.is_closed(*lane) {
                    return Some(EventFault::LaneClosed(number));
                }
                None
            }
            SeenEvent::Crash => None,
        }
    }

    /// The era, from 1 on.
    pub(crate) fn era(&self) -> u64
        ensures { result ≡ self.now.era }
    {
        self.era
    }

    /// How many calls came before the unanswered one of this lane that a message has the transaction number of.
    pub(crate) fn place_of(&self, lane: u32, message: &[u8]) -> Option<u64>
        ensures { result ≡ get same_key self.now.unanswered (lane, xid_of message.now) }
    {
        self.unanswered.get(&(lane, transaction(message))).copied()
    }

    /// Takes in the next event. 2 ^ 64 calls count as want of memory.
    pub fn follow(&mut self, event: &SeenEvent<'_>) -> Result<(), AllocError>
        requires { self.old.era + 1 < 2 ^ 64 }
        ensures ok { OnOk result (KnowsOneMore self.old self.new (seen_event event.now)) }
        ensures err { OnErr result (KnowsAsMuch self.old self.new) }
        // A crash needs no memory.
        ensures crashed { seen_event event.now ≡ crash → IsOk result }
    {
        match event {
            SeenEvent::Call { lane, message } => {
                let Some(calls) = self.calls.checked_add(1) else {
                    return Err(AllocError);
                };
                self.unanswered.reserve(1)?;
                self.lanes.insert(*lane, LaneUse::InEra(self.era))?;
                self.unanswered
                    .insert((*lane, transaction(*message)), self.calls)?;
                self.calls = calls;
            }
            SeenEvent::Reply { lane, message } => {
                self.lanes.insert(*lane, LaneUse::InEra(self.era))?;
                self.unanswered.swap_remove(&(*lane, transaction(*message)));
            }
            SeenEvent::Close { lane } => {
                self.lanes.insert(*lane, LaneUse::Closed(self.era))?;
            }
            SeenEvent::Crash => self.era += 1,
        }
        Ok(())
    }
}

/// What the events leave open, where each may follow those before it.
pub fn follow_all(alloc: Global, events: &[SeenEvent<'_>]) -> Result<OpenCalls, HistoryFault>
    ensures found { IfOk result (AreKnownToFollow (all_seen events.now)) }
    ensures fault { IsErrorOf (FirstFaultOf (all_seen events.now)) result }
{
    let mut calls = OpenCalls::new(alloc);
    for (index, event) in events.iter().enumerate() {
        if let Some(fault) = calls.fault_of(index as u64 + 1, event) {
            return Err(HistoryFault::from(fault));
        }
        calls.follow(event)?;
    }
    Ok(calls)
}
