//! A connection of a client, and what is on its way on it.

ghost use Rattle.std.specs.Prelude.{◌≡◌, ◌<◌, ◌++◌, [], length, IsTrue, IfOk, OnOk, OnErr, Some, None};
ghost use Rattle.history_file.specs.Event.Event.{call};
ghost use Rattle.xdr_records.specs.Record.{record_text};
ghost use Rattle.rpc_client.specs.Asking.{message_text};
ghost use Rattle.night_lanes.specs.Noting.{Gains, Stays};
ghost use Rattle.night_lanes.specs.Telling.{of_lane, of_number, of_call, trouble_in};

use crate::counts::Counts;
use crate::hearing::Heard;
use crate::notes::{Notes, Unnoted};
use crate::open_calls::OpenCalls;
use crate::outgoing::Outgoing;
use crate::settings::Quota;
use crate::troubles::{Trouble, TroubleKind};
use crate::waiting::Waiting;
use nfs3_types::NfsCall;
use rpc_client::{Credential, put_message};
use std::alloc::{AllocError, Global};
use std::time::Instant;
use xdr_records::RecordFeed;

/// A connection of a client, and what is on its way on it.
pub struct Lane {
    /// Its number in the log.
    pub number: u32,
    /// The era in which it began.
    pub era: u64,
    /// The client's number.
    pub client: u32,
    /// The calls that are on their way.
    pub pending: OpenCalls,
    /// What is still to be sent.
    pub outgoing: Outgoing,
    /// What came, and isn't taken in yet.
    pub feed: RecordFeed,
    /// The message of the call that is being noted.
    message: Vec<u8>,
    /// How many more calls the client is to make.
    pub quota: Quota,
    /// How many calls were made on it, and how they came out.
    pub counts: Counts,
    /// How long it has waited.
    pub waiting: Waiting,
}

impl Drop for Lane {
    fn drop(self) {
        let Lane {
            number: _,
            era: _,
            client: _,
            pending,
            outgoing,
            feed,
            message,
            quota: _,
            counts,
            waiting: _,
        } = self;
        drop(pending);
        drop(outgoing);
        drop(feed);
        drop(message);
        drop(counts);
    }
}

impl Lane {
    /// A connection on which nothing was sent.
    pub fn new(
        alloc: Global,
        number: u32,
        era: u64,
        client: u32,
        quota: Quota,
    ) -> Result<Lane, AllocError>
        ensures whose { IfOk result (λ lane. (lane.number ≡ number) × (lane.era ≡ era) × (lane.client ≡ client) × (lane.quota ≡ quota)) }
        ensures empty { IfOk result (λ lane. (lane.outgoing ≡ []) × (lane.pending.last ≡ 0) × (lane.pending.calls.items ≡ [])) }
    {
        Ok(Lane {
            number,
            era,
            client,
            pending: OpenCalls::new(alloc),
            outgoing: Outgoing::new(alloc),
            feed: RecordFeed::new(alloc),
            message: Vec::new(alloc),
            quota,
            counts: Counts::new(alloc)?,
            waiting: Waiting::new(),
        })
    }

    /// Whether the client is to make another call now.
    pub fn wants(&self, depth: u32, now: Option<Instant>) -> bool
        // No more calls than that are on their way, and none is made that the client isn't to make.
        ensures may { IsTrue result → (length self.now.pending.calls.items < depth) × (0 < self.now.quota.calls) }
        // Before the time is over it makes each of its calls.
        ensures gives { self.now.quota.until ≡ None → length self.now.pending.calls.items < depth → 0 < self.now.quota.calls → IsTrue result }
    {
        let is_late = match (self.quota.until, now) {
            (Some(until), Some(now)) => now >= until,
            _ => false,
        };
        self.quota.calls > 0 && !is_late && self.pending.calls().len() < depth as usize
    }

    /// Has a call noted, and then puts its frame after what is to be sent; or neither.
    pub fn put_call<N: Notes>(
        &mut self,
        notes: &mut N,
        xid: u32,
        who: Credential,
        asked: &NfsCall,
    ) -> Result<(), Unnoted>
        ensures noted { OnOk result (Gains (N.recording notes.old) (N.recording notes.new) (call self.old.number (message_text xid who asked.now))) }
        ensures queued { OnOk result (self.new.outgoing ≡ self.old.outgoing ++ record_text (message_text xid who asked.now)) }
        ensures kept { OnErr result (self.new.outgoing ≡ self.old.outgoing) }
        ensures unnoted { OnErr result (Stays (N.recording notes.old) (N.recording notes.new)) }
        // Nothing else becomes of the lane.
        ensures rest { self.new ≡ record self.old { outgoing = self.new.outgoing; message = self.new.message } }
    {
        self.message.clear();
        put_message(&mut self.message, xid, who, asked)?;
        self.outgoing
            .queue(notes, self.number, self.message.as_slice())
    }

    /// A trouble of the lane, and of no call.
    pub fn trouble(&self, kind: TroubleKind) -> Trouble
        ensures { result ≡ of_lane self.now kind }
    {
        Trouble {
            client: Some(self.client),
            lane: Some(self.number),
            xid: None,
            call: None,
            kind,
        }
    }

    /// A trouble of a call that isn't open.
    pub fn trouble_with(&self, xid: u32, number: u32, kind: TroubleKind) -> Trouble
        ensures { result ≡ record (of_number self.now xid kind) { call = Some number } }
    {
        Trouble {
            client: Some(self.client),
            lane: Some(self.number),
            xid: Some(xid),
            call: Some(number),
            kind,
        }
    }

    /// A trouble with a transaction number that no open call has.
    fn trouble_at(&self, xid: u32, kind: TroubleKind) -> Trouble
        ensures { result ≡ of_number self.now xid kind }
    {
        Trouble {
            client: Some(self.client),
            lane: Some(self.number),
            xid: Some(xid),
            call: None,
            kind,
        }
    }

    /// A trouble of the open call at a place, or of the lane.
    pub fn trouble_of(&self, place: usize, kind: TroubleKind) -> Trouble
        ensures { result ≡ of_call self.now place kind }
    {
        match self.pending.calls().get(place) {
            Some(open) => Trouble {
                client: Some(self.client),
                lane: Some(self.number),
                xid: Some(open.xid),
                call: Some(open.number),
                kind,
            },
            None => self.trouble(kind),
        }
    }

    /// The trouble that a record is, if it is one.
    pub fn trouble_in(&self, heard: &Heard) -> Option<Trouble>
        ensures { result ≡ trouble_in self.now heard.now }
    {
        match heard {
            Heard::Answer(_, _) => None,
            Heard::BadResult(place, at, kind) => {
                Some(self.trouble_of(*place, TroubleKind::BadResult(*at, *kind)))
            }
            Heard::Refused(place, refusal) => {
                Some(self.trouble_of(*place, TroubleKind::Refused(*refusal)))
            }
            Heard::SecondReply(xid) => Some(self.trouble_at(*xid, TroubleKind::SecondReply)),
            Heard::Unknown(xid) => Some(self.trouble_at(*xid, TroubleKind::UnknownReply)),
            Heard::NoReply(fault) => Some(self.trouble(TroubleKind::NotRpc(*fault))),
        }
    }
}
