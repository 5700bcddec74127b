//! What was wrong, each kind in a line.

use crate::eras::Eras;
use crate::reading::Reading;
use crate::replies::{Met, refused_by_rpc};
use crate::seconds::seconds_between;
use crate::unanswered::{Unanswered, unanswered_in};
use history_file::Event;
use indexmap::IndexMap;
use nfs_history::HistoryFault;
use nfs_relay::{Halt, Refused, ServerEnd};
use nfs_tap::PumpEnd;
use std::alloc::{AllocError, Global};
use std::fmt;

/// How many changes are made in turn behind a call that was left aside.
const OVERTAKERS: u64 = 3;

/// How many seconds a call waits that was left aside. A right server may have to wait for its disk.
const WAITING_SECS: usize = 30;

/// One kind of what was wrong.
#[derive(Clone, Copy, PartialEq, Eq)]
pub enum Finding {
    /// The server ended this many connections that no crash did, this lane the first of them.
    ServerEnded(u64, u32),
    /// This many calls got no reply, and no crash explains it: the first on this lane, with this transaction number.
    Unanswered(u64, u32, u32),
    /// The server took none of this many connections.
    Untaken(u64),
    /// The server ended the recorder's own connection this often outside a crash.
    WentDown(u64),
    /// This many crashes were told while the server was there.
    LivedOn(u64),
    /// RPC refuses these calls of judged procedures.
    RefusedCalls(Met),
    /// This many calls got a reply that gives nothing, and not the end: this one first.
    Empty(u64, u64),
    /// A record of the server on this lane wasn't noted, for this reason.
    RefusedReply(u32, PumpEnd),
    /// A record of a client on this lane wasn't noted, for this reason.
    RefusedCall(u32, PumpEnd),
    /// This many connections of clients weren't served: too many were open, or the system gave no thread or no file.
    Unserved(u64),
    /// This many orders weren't understood, or couldn't be read.
    Missed(u64),
    /// The log was full.
    LogFull,
    /// Memory ran out.
    NoMemory,
    /// This much more was found that there was no memory for.
    Untold(u64),
    /// `check` refuses the history.
    Fault(HistoryFault),
    /// No call is judged.
    NothingJudged,
}

impl Finding {
    /// Writes what was wrong with clients or with the recording.
    fn write_others<W: fmt::Write>(&self, f: &mut fmt::Formatter<W>) -> fmt::Result {
        match *self {
            Finding::RefusedCall(lane, end) => {
                write!(f, "what a client sent on lane {lane} is no call: {end}")
            }
            Finding::Unserved(count) => {
                write!(f, "{count} connections of clients weren't served")
            }
            Finding::Missed(count) => write!(f, "{count} orders weren't understood or read"),
            Finding::LogFull => f.write_str("the history is full: the recording ended early"),
            Finding::NoMemory => f.write_str("the recording ended early: out of memory"),
            Finding::Untold(count) => write!(
                f,
                "{count} more findings, for which there was no memory"
            ),
            Finding::Fault(fault) => write!(f, "check refuses the history: {fault}"),
            Finding::NothingJudged => f.write_str("no call is judged: is the port that of NFS?"),
            _ => Ok(()),
        }
    }
}

impl fmt::Display for Finding {
    fn fmt<W: fmt::Write>(&self, f: &mut fmt::Formatter<W>) -> fmt::Result {
        match *self {
            Finding::ServerEnded(count, lane) => {
                write!(
                    f,
                    "the server ended {count} connections outside a crash, the first lane {lane}"
                )
            }
            Finding::Unanswered(count, lane, xid) => write!(
                f,
                "{count} calls were never answered, the first on lane {lane} with transaction number {xid}"
            ),
            Finding::Untaken(count) => write!(f, "the server took none of {count} connections"),
            Finding::WentDown(count) => write!(
                f,
                "the server ended the recorder's own connection outside a crash: {count} times"
            ),
            Finding::LivedOn(count) => {
                write!(
                    f,
                    "the server was there when a crash was told: {count} times"
                )
            }
            Finding::RefusedCalls(met) => {
                let (count, (lane, xid)) = (met.count, met.first);
                write!(
                    f,
                    "RPC refuses {count} calls, the first on lane {lane} with transaction number {xid}"
                )
            }
            Finding::Empty(count, call) => {
                write!(
                    f,
                    "{count} replies give nothing and no end, the first to call {call}"
                )
            }
            Finding::RefusedReply(lane, end) => {
                write!(
                    f,
                    "what the server sent on lane {lane} is no reply to an open call: {end}"
                )
            }
            _ => self.write_others(f),
        }
    }
}

/// What is known of a recording that ended.
#[derive(Clone, Copy)]
pub struct Recording<'a> {
    /// What was noted.
    pub events: &'a [Event],
    /// The lanes that the server ended first.
    pub ends: &'a [ServerEnd],
    /// The lanes that ended since a record wasn't noted.
    pub refusals: &'a [Refused],
    /// The lanes that ended while replies could still come, and not by the server.
    pub cut: &'a [u32],
    /// How many connections the server didn't take.
    pub untaken: u64,
    /// How many connections of clients weren't served.
    pub unserved: u64,
    /// How many orders were missed.
    pub missed: u64,
    /// How much more was found that there was no memory for.
    pub untold: u64,
    /// What a connection of the recorder's own showed.
    pub watch: Watch<'a>,
    /// Why the recording ended.
    pub halt: Option<Halt>,
}

/// What a connection of the recorder's own to the server showed, and a clock.
#[derive(Clone, Copy)]
pub struct Watch<'a> {
    /// How often the server ended it outside a crash.
    pub outages: u64,
    /// How many crashes were told while the server was there.
    pub survivals: u64,
    /// How many events there were at each second.
    pub moments: &'a [usize],
}

impl Watch<'_> {
    /// Nothing was watched.
    pub const NONE: Watch<'static> = Watch {
        outages: 0,
        survivals: 0,
        moments: &[],
    };
}

/// What was wrong, each kind once.
#[derive(Drop)]
pub struct Findings {
    pub all: Vec<Finding>,
}

/// The lanes that the server ended outside a crash.
fn server_ended(eras: &Eras, moments: &[usize], ends: &[ServerEnd]) -> Option<Finding> {
    let mut lanes = 0u64;
    let mut first = None;
    let mut last = 0u32;
    for end in ends {
        // Both ways of a lane may tell of its end.
        if end.lane != last && !eras.is_of_crash(moments, end.events) {
            lanes = lanes.saturating_add(1);
            first = first.or(Some(end.lane));
        }
        last = end.lane;
    }
    Some(Finding::ServerEnded(lanes, first?))
}

/// Whether a call that got no reply was left aside: changes that were asked behind it were made, or it waited long.
fn is_left_aside(moments: &[usize], call: &Unanswered) -> bool {
    call.overtakers >= OVERTAKERS
        || seconds_between(moments, call.begin, call.events) >= WAITING_SECS
}

/// The calls that got no reply: outside a crash, on lanes that weren't cut, and those that were left aside.
fn unanswered(
    alloc: Global,
    eras: &Eras,
    recording: Recording<'_>,
) -> Result<Option<Finding>, AllocError> {
    let mut cut: IndexMap<u32, ()> = IndexMap::new(alloc);
    for lane in recording.cut {
        cut.insert(*lane, ())?;
    }
    let mut count = 0u64;
    let mut first = None;
    let moments = recording.watch.moments;
    for call in unanswered_in(alloc, recording.events)?.iter() {
        let is_excused = cut.contains_key(&call.lane) || eras.is_of_crash(moments, call.events);
        if !is_excused || is_left_aside(moments, call) {
            count = count.saturating_add(1);
            first = first.or(Some((call.lane, call.xid)));
        }
    }
    Ok(first.map(|(lane, xid)| Finding::Unanswered(count, lane, xid)))
}

/// The first record that wasn't noted, of the server or of a client.
fn refused(all: &[Refused], is_of_server: bool) -> Option<Finding> {
    let refused = all
        .iter()
        .find(|refused| refused.is_of_server == is_of_server)?;
    if is_of_server {
        Some(Finding::RefusedReply(refused.lane, refused.end))
    } else {
        Some(Finding::RefusedCall(refused.lane, refused.end))
    }
}

/// What there was a number of times, if it was at all.
fn counted(count: u64, finding: Finding) -> Option<Finding> {
    if count > 0 { Some(finding) } else { None }
}

/// The calls that RPC refuses.
fn refused_calls(alloc: Global, events: &[Event]) -> Result<Option<Finding>, AllocError> {
    match refused_by_rpc(alloc, events)? {
        Some(met) => Ok(Some(Finding::RefusedCalls(met))),
        None => Ok(None),
    }
}

/// Why the recording ended early, if it did.
fn early(halt: Option<Halt>) -> Option<Finding> {
    match halt {
        Some(Halt::LogFull) => Some(Finding::LogFull),
        Some(Halt::NoMemory) => Some(Finding::NoMemory),
        _ => None,
    }
}

/// What is wrong with what was read of the file.
fn misread(reading: Reading) -> Option<Finding> {
    match reading.fault {
        Some(fault) => Some(Finding::Fault(fault)),
        None if reading.judged == 0 => Some(Finding::NothingJudged),
        None => None,
    }
}

/// What was wrong in a recording, of whose file this was read: first the server's part, then the clients', then the recording's.
pub fn findings_of(
    alloc: Global,
    recording: Recording<'_>,
    reading: Reading,
) -> Result<Findings, AllocError> {
    let eras = Eras::of(alloc, recording.events)?;
    let watch = recording.watch;
    let mut all = Vec::new(alloc);
    for finding in [
        server_ended(&eras, watch.moments, recording.ends),
        unanswered(alloc, &eras, recording)?,
        counted(recording.untaken, Finding::Untaken(recording.untaken)),
        counted(watch.outages, Finding::WentDown(watch.outages)),
        counted(watch.survivals, Finding::LivedOn(watch.survivals)),
        refused_calls(alloc, recording.events)?,
        counted(
            reading.empty,
            Finding::Empty(reading.empty, reading.first_empty),
        ),
        refused(recording.refusals, true),
        refused(recording.refusals, false),
        counted(recording.unserved, Finding::Unserved(recording.unserved)),
        counted(recording.missed, Finding::Missed(recording.missed)),
        early(recording.halt),
        counted(recording.untold, Finding::Untold(recording.untold)),
        misread(reading),
    ] {
        if let Some(finding) = finding {
            all.push(finding)?;
        }
    }
    Ok(Findings { all })
}
