//! What is found to be wrong with a recording.

mod folders;
pub(crate) mod mending;

use crate::recordings::mending::bytes_of;
use history_file::{Event, SeenEvent};
use nfs_history::HistoryFault;
use nfs_relay::{Halt, Refused, ServerEnd};
use nfs_tap::{NoteFault, PumpEnd};
use recording_health::{Finding, Met, Reading, Recording, Watch, findings_of, reading_of};
use std::alloc::{AllocError, Global};
use std::test::Fail;

/// The words of the message of a call of NFS version 3 (RFC 5531, section 9), before its arguments.
fn call_words(xid: u32, procedure: u32) -> [u32; 10] {
    [xid, 0, 2, 100_003, 3, procedure, 0, 0, 0, 0]
}

/// What happens in a recording, one after the other: a letter of `append_step`, a lane, and a transaction number.
type Steps = &'static [u8];

/// Appends one step to events: `c` is a call and `r` a reply of eight bytes. `g` is a GETATTR, `w` a WRITE, `m` a CREATE and `i` an FSINFO, as whole
/// messages; `n` is a reply PROC_UNAVAIL, `x` a close, and all else a crash.
fn append_step(alloc: Global, events: &mut Vec<Event>, step: [u8; 3]) -> Result<(), AllocError> {
    let [kind, lane, xid] = step;
    let (lane, xid) = (u32::from(lane & 15), u32::from(xid & 15));
    let event = match kind {
        b'c' => event_of(alloc, true, lane, &[xid, 0]),
        b'r' => event_of(alloc, false, lane, &[xid, 1]),
        b'g' => event_of(alloc, true, lane, &call_words(xid, 1)),
        b'w' => event_of(alloc, true, lane, &call_words(xid, 7)),
        b'm' => event_of(alloc, true, lane, &call_words(xid, 8)),
        b'i' => event_of(alloc, true, lane, &call_words(xid, 19)),
        b'n' => event_of(alloc, false, lane, &[xid, 1, 0, 0, 0, 3]),
        b'x' => Event::from_seen(alloc, &SeenEvent::Close { lane }),
        _ => Event::from_seen(alloc, &SeenEvent::Crash),
    };
    events.push(event?)?;
    Ok(())
}

/// A call or a reply whose message has these words.
fn event_of(alloc: Global, is_call: bool, lane: u32, words: &[u32]) -> Result<Event, AllocError> {
    let bytes = bytes_of(alloc, &[], words)?;
    let message = bytes.as_slice();
    if is_call {
        Event::from_seen(alloc, &SeenEvent::Call { lane, message })
    } else {
        Event::from_seen(alloc, &SeenEvent::Reply { lane, message })
    }
}

/// The events of steps, each of which is three letters and a blank.
fn events_of(alloc: Global, steps: Steps) -> Result<Vec<Event>, AllocError> {
    let mut events = Vec::new(alloc);
    for step in steps.chunks(4) {
        match step {
            [kind, lane, xid, ..] => append_step(alloc, &mut events, [*kind, *lane, *xid])?,
            _ => {}
        }
    }
    Ok(events)
}

/// What happened; after how many events the server ended which lanes; which lanes were cut; the number of events at each second; what is found.
type Case = (
    Steps,
    &'static [(u32, usize)],
    &'static [u32],
    &'static [usize],
    &'static [Finding],
);

/// The server is killed under a call of each of two lanes, which were answered before, and a third lane is answered after it.
const KILLED: Steps = b"c17 r17 c27 c18 x1- r27 c28 x2- !-- c31 r31 x3-";

/// The server ends a connection under a call, and answers on another one later, which may be older.
const LIVES_ON: Steps = b"c17 x1- c29 r29 x2- !--";

const LIVES_ON_OLDER: Steps = b"c21 r21 c17 x1- c29 r29 x2- !--";

const LIVED_ON: &[Finding] = &[Finding::ServerEnded(1, 1), Finding::Unanswered(1, 1, 7)];

/// A call on each of two lanes isn't answered.
const WAITING: Steps = b"c17 c28 x1- x2-";

/// A GETATTR isn't answered; after it files are made and written in turn, and the server is killed.
const OVERTAKEN: Steps = b"g11 m12 r12 w13 r13 m14 r14 w15 r15 x1- !--";

/// Without the last change there are two after the first, which may have been asked before it.
const NOT_OVERTAKEN: Steps = b"g11 m12 r12 w13 r13 m14 r14";

/// Changes side by side.
const AT_ONCE: Steps = b"g11 m12 m13 m14 m15 r12 r13 r14 r15 x1-";

/// A WRITE isn't answered, which may wait for the disk.
const AT_DISK: Steps = b"w11 m12 r12 m13 r13 m14 r14 m15 r15 x1-";

/// A call waits, from the second or the third second on.
const WAITS: Steps = b"c17 x1-";

const THIRTY: &[usize] = &[
    0, 1, 1, 1, 1, 1, 1, 1, 1, 1, 1, 1, 1, 1, 1, 1, 1, 1, 1, 1, 1, 1, 1, 1, 1, 1, 1, 1, 1, 1, 1, 2,
];

const LESS: &[usize] = &[
    0, 0, 1, 1, 1, 1, 1, 1, 1, 1, 1, 1, 1, 1, 1, 1, 1, 1, 1, 1, 1, 1, 1, 1, 1, 1, 1, 1, 1, 1, 1, 2,
];

/// A connection ends ten seconds before a crash, or fewer.
const TEN: &[usize] = &[2, 3, 3, 3, 3, 3, 3, 3, 3, 3, 3, 4];

const FEWER: &[usize] = &[3, 3, 3, 3, 3, 3, 3, 3, 3, 4];

const ENDED: Steps = b"c17 r17 x1- !--";

/// RPC refuses calls; an FSINFO isn't judged.
const REFUSED: Steps = b"w11 n11 i12 n12 m23 n23 x1- x2-";

const TWO_REFUSED: Finding = Finding::RefusedCalls(Met {
    count: 2,
    first: (1, 1),
});

/// Calls on two lanes aren't answered, and there is no crash.
const LOST: Steps = b"c17 c18 r17 c27 x1- x2-";

const TWO_ENDED: &[Finding] = &[Finding::ServerEnded(2, 1), Finding::Unanswered(2, 1, 8)];

const CASES: [Case; 16] = [
    (KILLED, &[(1, 4), (2, 7)], &[], &[], &[]),
    (LIVES_ON, &[(1, 1)], &[], &[], LIVED_ON),
    (LIVES_ON_OLDER, &[(1, 3)], &[], &[], LIVED_ON),
    (WAITING, &[], &[1, 2], &[], &[]),
    (WAITING, &[], &[1], &[], &[Finding::Unanswered(1, 2, 8)]),
    (OVERTAKEN, &[], &[1], &[], &[Finding::Unanswered(1, 1, 1)]),
    (NOT_OVERTAKEN, &[], &[1], &[], &[]),
    (AT_ONCE, &[], &[1], &[], &[]),
    (AT_DISK, &[], &[1], &[], &[]),
    (WAITS, &[], &[1], THIRTY, &[Finding::Unanswered(1, 1, 7)]),
    (WAITS, &[], &[1], LESS, &[]),
    (ENDED, &[(1, 2)], &[], TEN, &[Finding::ServerEnded(1, 1)]),
    (ENDED, &[(1, 2)], &[], FEWER, &[]),
    (REFUSED, &[], &[], &[], &[TWO_REFUSED]),
    // Both ways of a lane say its end.
    (LOST, &[(1, 4), (1, 4), (2, 5)], &[], &[], TWO_ENDED),
    (LOST, &[], &[], &[], &[Finding::Unanswered(2, 1, 8)]),
];

/// A recording of these events, ends and cut lanes, of which nothing else is told but how many events there were at each second.
fn recording_of<'a>(
    events: &'a [Event],
    ends: &'a [ServerEnd],
    cut: &'a [u32],
    moments: &'a [usize],
) -> Recording<'a> {
    Recording {
        events,
        ends,
        refusals: &[],
        cut,
        untaken: 0,
        unserved: 0,
        missed: 0,
        untold: 0,
        watch: Watch {
            outages: 0,
            survivals: 0,
            moments,
        },
        halt: None,
    }
}

/// Whether just these findings are made.
fn is_found(alloc: Global, case: Case) -> Result<bool, AllocError> {
    let (steps, ended, cut, moments, wanted) = case;
    let events = events_of(alloc, steps)?;
    let mut ends = Vec::new(alloc);
    for (lane, events) in ended {
        ends.push(ServerEnd {
            lane: *lane,
            events: *events,
        })?;
    }
    let recording = recording_of(events.as_slice(), ends.as_slice(), cut, moments);
    let found = findings_of(alloc, recording, Reading::NONE)?;
    Ok(found.all.as_slice() == wanted)
}

#[test]
fn what_is_wrong_is_found(rt: HostRuntime) -> Result<(), Fail> {
    for case in CASES {
        assert!(rt; is_found(rt.alloc(), case)?);
    }
    Ok(())
}

const NO_SUCH_CALL: PumpEnd = PumpEnd::LogFault(NoteFault::NoSuchCall);

/// A record that wasn't noted.
fn refused(lane: u32, is_of_server: bool, end: PumpEnd) -> Refused {
    Refused {
        lane,
        is_of_server,
        end,
    }
}

/// What is found of a recording without events, about which much else is said.
const OF_OTHERS: [Finding; 11] = [
    Finding::Untaken(2),
    Finding::WentDown(1),
    Finding::LivedOn(2),
    Finding::Empty(2, 5),
    Finding::RefusedReply(5, NO_SUCH_CALL),
    Finding::RefusedCall(4, PumpEnd::RecordTooLong),
    Finding::Unserved(3),
    Finding::Missed(1),
    Finding::LogFull,
    Finding::Untold(4),
    Finding::NothingJudged,
];

/// Whether that is found, and nothing else.
fn are_others_found(alloc: Global) -> Result<bool, AllocError> {
    let reading = Reading {
        fault: None,
        judged: 0,
        empty: 2,
        first_empty: 5,
    };
    let unnoted = [
        refused(4, false, PumpEnd::RecordTooLong),
        refused(5, true, NO_SUCH_CALL),
        refused(6, true, PumpEnd::RecordTooLong),
    ];
    let watch = Watch {
        outages: 1,
        survivals: 2,
        moments: &[],
    };
    let recording = Recording {
        events: &[],
        ends: &[],
        refusals: &unnoted,
        cut: &[],
        untaken: 2,
        unserved: 3,
        missed: 1,
        untold: 4,
        watch,
        halt: Some(Halt::LogFull),
    };
    let found = findings_of(alloc, recording, reading)?;
    Ok(found.all.as_slice() == OF_OTHERS.as_slice())
}

/// Whether the reading of a file is one without a judged call, and with this fault.
fn is_reading(alloc: Global, file: &[u8], fault: Option<HistoryFault>) -> Result<bool, AllocError> {
    let wanted = Reading {
        fault,
        judged: 0,
        ..Reading::NONE
    };
    Ok(reading_of(alloc, file)? == wanted)
}

#[test]
fn files_are_read_and_others_are_found(rt: HostRuntime) -> Result<(), Fail> {
    let alloc = rt.alloc();
    let cut = Some(HistoryFault::Truncated);
    assert!(rt; are_others_found(alloc)?);
    assert!(rt; is_reading(alloc, b"NFSHIST1\0\0\0\0\0\0\0\0", None)?);
    assert!(rt; is_reading(alloc, b"NFSHIST1\0\0\0\0\0\0\0\x01", cut)?);
    Ok(())
}

/// Findings of the server, and their words.
const OF_SERVER: [Finding; 9] = [
    Finding::ServerEnded(2, 3),
    Finding::Unanswered(1, 2, 9),
    Finding::RefusedReply(5, PumpEnd::LogFault(NoteFault::NoSuchCall)),
    Finding::Untaken(7),
    Finding::WentDown(1),
    Finding::LivedOn(2),
    Finding::RefusedCalls(Met {
        count: 3,
        first: (2, 9),
    }),
    Finding::Empty(2, 5),
    Finding::NothingJudged,
];

const WORDS_OF_SERVER: [&str; 9] = [
    "the server ended 2 connections outside a crash, the first lane 3",
    "1 calls were never answered, the first on lane 2 with transaction number 9",
    "what the server sent on lane 5 is no reply to an open call: LogFault NoSuchCall",
    "the server took none of 7 connections",
    "the server ended the recorder's own connection outside a crash: 1 times",
    "the server was there when a crash was told: 2 times",
    "RPC refuses 3 calls, the first on lane 2 with transaction number 9",
    "2 replies give nothing and no end, the first to call 5",
    "no call is judged: is the port that of NFS?",
];

/// Findings of clients and of the recording, and their words.
const OF_RECORDING: [Finding; 7] = [
    Finding::RefusedCall(4, PumpEnd::RecordTooLong),
    Finding::Untold(4),
    Finding::Unserved(3),
    Finding::Missed(1),
    Finding::NoMemory,
    Finding::LogFull,
    Finding::Fault(HistoryFault::Truncated),
];

const WORDS_OF_RECORDING: [&str; 7] = [
    "what a client sent on lane 4 is no call: RecordTooLong",
    "4 more findings, for which there was no memory",
    "3 connections of clients weren't served",
    "1 orders weren't understood or read",
    "the recording ended early: out of memory",
    "the history is full: the recording ended early",
    "check refuses the history: Truncated",
];

/// Whether findings have these words.
fn have_words(alloc: Global, findings: &[Finding], words: &[&str]) -> Result<bool, AllocError> {
    for (finding, wanted) in findings.iter().zip(words) {
        let said = finding.to_string(alloc)?;
        if said.as_str() != *wanted {
            return Ok(false);
        }
    }
    Ok(findings.len() == words.len())
}

#[test]
fn findings_have_words(rt: HostRuntime) -> Result<(), Fail> {
    assert!(rt; have_words(rt.alloc(), &OF_SERVER, &WORDS_OF_SERVER)?);
    assert!(rt; have_words(rt.alloc(), &OF_RECORDING, &WORDS_OF_RECORDING)?);
    Ok(())
}
