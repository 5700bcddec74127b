//! Calls and the replies that answer them.

ghost use Rattle.std.specs.Prelude.{◌≡◌, [], IfOk, map, reverse};
ghost use Rattle.nfs_history.specs.Standing.{EachMayFollow};
ghost use Rattle.nfs_history.specs.Calls.{xid_of, calls_of, eras_from};
ghost use Rattle.nfs_history.specs.Matching.{seen_call};
ghost use Rattle.nfs_history.specs.Checking.{is_crash};
ghost use Rattle.history_file.specs.Owning.{seen_event, all_seen};

use byteorder::{BigEndian, ByteOrder};
use history_file::SeenEvent;
use indexmap::IndexMap;
use std::alloc::{AllocError, Global};

/// A reply, with the number of its event.
#[derive(Clone, Copy)]
pub struct SeenReply<'a> {
    /// The number of its event, counted from 1.
    pub number: u64,
    /// The RPC reply, without record marking.
    pub message: &'a [u8],
}

/// A call, with the number of its event, its era and the reply that answers it.
#[derive(Clone, Copy)]
pub struct SeenCall<'a> {
    /// The lane that it was sent on.
    pub lane: u32,
    /// The RPC call, without record marking.
    pub message: &'a [u8],
    /// The number of its event, counted from 1.
    pub begin: u64,
    /// The era in which it began, counted from 1.
    pub era: u64,
    /// The reply that answers it, where one came.
    pub answer: Option<SeenReply<'a>>,
}

impl<'a> SeenCall<'a> {
    ghost use Rattle.std.specs.Prelude.{◌≡◌, option_map};

    /// The number of the event of its reply, where one came.
    pub fn end(&self) -> Option<u64>
        ensures { result ≡ option_map (λ reply. reply.number) self.now.answer }
    {
        self.answer.map(|reply| reply.number)
    }
}

/// The transaction number of a message: its first word, or 0 where there is none.
#[tactic(auto, unfolding(crate::specs::Calls::xid_of, xdr_records::specs::Items::word_of))]
pub fn transaction(message: &[u8]) -> u32
    ensures { result ≡ xid_of message.now }
{
    if message.len() < 4 {
        0
    } else {
        BigEndian::read_u32(message)
    }
}

fn is_crash(event: &SeenEvent<'_>) -> bool
    ensures { result ≡ is_crash (seen_event event.now) }
{
    matches!(event, SeenEvent::Crash)
}

/// How many eras the events are of: one more than the server went down.
pub fn count_eras(events: &[SeenEvent<'_>]) -> u64
    ensures { result ≡ eras_from 1 (all_seen events.now) }
{
    let mut eras = 1;
    for event in events {
        if is_crash(event) {
            eras += 1;
        }
    }
    eras
}

/// The calls among the events of so many eras, the last one first, each with the first reply behind it on its lane that has
/// its transaction number. It goes from the last event to the first, so that a call finds its reply met, and takes it; the era
/// goes down by one at each crash.
pub fn matched_calls<'a>(
    alloc: Global,
    events: &[SeenEvent<'a>],
    eras: u64,
) -> Result<Vec<SeenCall<'a>>, AllocError>
    requires count { eras ≡ eras_from 1 (all_seen events.now) }
    requires follow { EachMayFollow [] (all_seen events.now) }
    ensures { IfOk result (λ v. map seen_call (reverse v.items) ≡ calls_of (all_seen events.now)) }
{
    let mut replies: IndexMap<(u32, u32), SeenReply<'a>> = IndexMap::new(alloc);
    let mut calls = Vec::new(alloc);
    let mut era = eras;
    for index in (0..events.len()).rev() {
        let number = index as u64 + 1;
        match events[index] {
            SeenEvent::Call { lane, message } => {
                let xid = transaction(message);
                let answer = replies.swap_remove(&(lane, xid));
                calls.push(SeenCall {
                    lane,
                    message,
                    begin: number,
                    era,
                    answer,
                })?;
            }
            SeenEvent::Reply { lane, message } => {
                let xid = transaction(message);
                replies.insert((lane, xid), SeenReply { number, message })?;
            }
            SeenEvent::Close { .. } => {}
            SeenEvent::Crash => era -= 1,
        }
    }
    Ok(calls)
}
