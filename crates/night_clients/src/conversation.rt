//! The calls of a client on its connection, and the replies to them.

use crate::night::{Night, TICK_NANOSECONDS};
use crate::runtime::ClientsRuntime;
use crate::shared_log::SharedLog;
use night_calls::Client;
use night_lanes::{
    Arrival, Heard, Lane, Notes, OpenCall, Trouble, TroubleKind, hear, note_heard, receive,
};
use program_streams::READ_SIZE;
use std::alloc::{AllocError, Global};
use std::io::{Read, Write};
use std::net::TcpStream;
use std::time::{Duration, Instant};

/// How a client's calls ended.
#[derive(Clone, Copy, PartialEq, Eq)]
pub enum LaneEnd {
    /// It made all of them, and none is open.
    Done,
    /// The server went down.
    Crash,
    /// The connection ended, or a read or a write failed.
    Ended,
    /// What was told makes the connection useless.
    Useless,
}

/// A buffer of this many bytes.
fn empty_buffer(alloc: Global, size: usize) -> Result<Vec<u8>, AllocError> {
    vec![in alloc; 0; size]
}

/// Draws a client's next call, has it noted, and puts it after what is to be sent. Where it isn't noted, that is the trouble.
fn ask<N: Notes>(
    night: &Night,
    notes: &mut N,
    client: &mut Client,
    lane: &mut Lane,
) -> Result<Option<Trouble>, AllocError> {
    let number = client.stamp().call;
    let Some(xid) = lane.pending.next_xid()? else {
        lane.quota.calls = 0;
        return Ok(None);
    };
    let call = client.next()?;
    if let Err(reason) = lane.put_call(notes, xid, night.settings.credential, &call) {
        client.give_up(&call)?;
        return Ok(Some(lane.trouble_with(xid, number, TroubleKind::from(reason))));
    }
    lane.quota.calls = lane.quota.calls.saturating_sub(1);
    lane.counts.count_call(call.procedure());
    lane.pending.open(OpenCall {
        xid,
        number,
        call,
        since: lane.waiting.passed(),
    })?;
    Ok(None)
}

/// Takes in what a record is that was noted and told, if that was due.
fn take_in(client: &mut Client, lane: &mut Lane, heard: Heard) -> Result<(), AllocError> {
    let Some(place) = heard.noted_at() else {
        return Ok(());
    };
    let Some(open) = lane.pending.close(place) else {
        return Ok(());
    };
    lane.counts.count_reply(open.call.procedure());
    match heard {
        Heard::Answer(_, reply) => {
            lane.counts.count_result(&reply)?;
            client.learn(&open.call, &reply)
        }
        Heard::Refused(_, refusal) => {
            lane.counts.count_refusal(refusal);
            client.give_up(&open.call)
        }
        _ => client.give_up(&open.call),
    }
}

/// Gives up the calls that are open on a lane.
pub(crate) fn give_up_all(client: &mut Client, lane: &Lane) -> Result<(), AllocError> {
    for open in lane.pending.calls() {
        client.give_up(&open.call)?;
    }
    Ok(())
}

impl Night {
    /// Says what is wrong with a lane, which is useless then.
    fn give_up_lane<R: ClientsRuntime>(&self, rt: &R, lane: &Lane, kind: TroubleKind) -> LaneEnd {
        self.tell(rt, lane.trouble(kind));
        LaneEnd::Useless
    }

    /// Has as many calls noted, and put after what is to be sent, as may be on their way.
    fn ask_all<R: ClientsRuntime, N: Notes>(
        &self,
        rt: &R,
        notes: &mut N,
        client: &mut Client,
        lane: &mut Lane,
        now: Option<Instant>,
    ) -> Result<(), LaneEnd> {
        let depth = self.settings.depth.calls();
        for _ in 0..depth {
            if !lane.wants(depth, now) {
                break;
            }
            match ask(self, notes, client, lane) {
                Ok(None) => {}
                Ok(Some(trouble)) => {
                    self.tell(rt, trouble);
                    return Err(LaneEnd::Useless);
                }
                Err(AllocError) => {
                    return Err(self.give_up_lane(rt, lane, TroubleKind::NoMemory));
                }
            }
        }
        Ok(())
    }

    /// Has a record noted if it is the reply to an open call, says which trouble it is if it is one, and takes it in.
    fn take_heard<R: ClientsRuntime, N: Notes>(
        &self,
        rt: &R,
        notes: &mut N,
        client: &mut Client,
        lane: &mut Lane,
        record: &[u8],
        heard: Heard,
    ) -> Result<(), LaneEnd> {
        if let Err(reason) = note_heard(notes, lane.number, &heard, record) {
            let place = heard.noted_at().unwrap_or(0);
            self.tell(rt, lane.trouble_of(place, TroubleKind::from(reason)));
            return Err(LaneEnd::Useless);
        }
        if let Some(trouble) = lane.trouble_in(&heard) {
            self.tell(rt, trouble);
        }
        match take_in(client, lane, heard) {
            Ok(()) => Ok(()),
            Err(AllocError) => Err(self.give_up_lane(rt, lane, TroubleKind::NoMemory)),
        }
    }

    /// Takes in the records that came whole.
    fn take_records<R: ClientsRuntime, N: Notes>(
        &self,
        rt: &R,
        notes: &mut N,
        client: &mut Client,
        lane: &mut Lane,
    ) -> Result<(), LaneEnd> {
        for _ in 0..u64::MAX {
            let Some(record) = lane.feed.take() else {
                break;
            };
            match hear(rt.alloc(), &lane.pending, record.as_slice()) {
                Ok(heard) => self.take_heard(rt, notes, client, lane, record.as_slice(), heard)?,
                Err(AllocError) => {
                    return Err(self.give_up_lane(rt, lane, TroubleKind::NoMemory));
                }
            }
        }
        Ok(())
    }

    /// Says of each open call that it has waited too long.
    fn check_overdue<R: ClientsRuntime>(&self, rt: &R, lane: &Lane) -> Result<(), LaneEnd> {
        let patience = self.settings.patience();
        let passed = lane.waiting.passed();
        let mut is_overdue = false;
        for (place, open) in lane.pending.calls().iter().enumerate() {
            if Duration::from_nanos(passed.saturating_sub(open.since)) < patience {
                break;
            }
            self.tell(rt, lane.trouble_of(place, TroubleKind::NoReply));
            is_overdue = true;
        }
        if is_overdue {
            return Err(LaneEnd::Useless);
        }
        Ok(())
    }

    /// Asks, sends, reads once, and takes in what came.
    fn take_turn<R: ClientsRuntime, N: Notes, I: Read, W: Write>(
        &self,
        rt: &R,
        notes: &mut N,
        client: &mut Client,
        lane: &mut Lane,
        reader: &mut I,
        writer: &mut W,
        buffer: &mut [u8],
    ) -> Result<(), LaneEnd> {
        let now = Instant::now(rt).ok();
        lane.waiting.begin_turn(now);
        self.ask_all(rt, notes, client, lane, now)?;
        if lane.pending.calls().is_empty() {
            return Err(LaneEnd::Done);
        }
        if lane.outgoing.send(writer).is_err() {
            return Err(LaneEnd::Ended);
        }
        let arrival = receive(reader, buffer, &mut lane.feed);
        self.take_records(rt, notes, client, lane)?;
        match arrival {
            Arrival::Piece => self.check_overdue(rt, lane),
            Arrival::Nothing => {
                lane.waiting.found_nothing(TICK_NANOSECONDS);
                self.check_overdue(rt, lane)
            }
            Arrival::End | Arrival::ReadFault => Err(LaneEnd::Ended),
            Arrival::TooLong => Err(self.give_up_lane(rt, lane, TroubleKind::RecordTooLong)),
            Arrival::NoMemory => Err(self.give_up_lane(rt, lane, TroubleKind::NoMemory)),
        }
    }

    /// Calls until the client has made its calls and has their replies, the connection is useless, or the server goes down.
    pub(crate) fn converse<R: ClientsRuntime>(
        &self,
        rt: &R,
        client: &mut Client,
        lane: &mut Lane,
        stream: &TcpStream,
    ) -> LaneEnd {
        let Ok(mut buffer) = empty_buffer(rt.alloc(), READ_SIZE) else {
            return self.give_up_lane(rt, lane, TroubleKind::NoMemory);
        };
        let mut notes = SharedLog {
            rt,
            log: &self.log,
            reserved: self.settings.reserved,
        };
        let (mut reader, mut writer) = (stream, stream);
        for _ in rt.forever() {
            if !self.runs(lane.era) {
                return LaneEnd::Crash;
            }
            let buffer = buffer.as_mut_slice();
            if let Err(end) = self.take_turn(
                rt,
                &mut notes,
                client,
                lane,
                &mut reader,
                &mut writer,
                buffer,
            ) {
                return end;
            }
        }
        unreachable!()
    }
}
