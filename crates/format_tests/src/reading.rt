//! What a history shows of a file and of events. Each fault of a file is a case of `command_cases`.

use crate::histories::{Happened, built, file};
use crate::requests::{Request, SYNCED};
use crate::streams::{CALL, REPLY, WRITE_CALL};
use nfs_history::{Event, History, HistoryFault, read_history};
use std::alloc::Global;
use std::test::Fail;

pub(crate) const CREATE: Request = Request::Create(0, b'a', Some(0xaa));

pub(crate) const WRITE: Request = Request::Write(0xaa, SYNCED, b"abc");

/// A file is made and written on lane 1, and read on lane 2.
const EXAMPLE: &[Happened] = &[
    Happened::Done(1, 1, CREATE),
    Happened::Done(1, 2, WRITE),
    WAS_READ,
];

/// The example's history, which is read of its file. What can't be written fails as if memory ran out.
pub(crate) fn example(alloc: Global) -> Result<History, HistoryFault> {
    match file(alloc, EXAMPLE) {
        Ok(bytes) => read_history(alloc, bytes.as_slice()),
        Err(_) => Err(HistoryFault::NoMemory),
    }
}

fn message_of(event: &Event) -> &[u8] {
    match event {
        Event::Call { message, .. } | Event::Reply { message, .. } => message.as_slice(),
        _ => &[],
    }
}

/// Whether these are six events, of which the first three have the example's messages.
fn are_shown(events: &[Event]) -> bool {
    let [first, second, third, _, _, _] = events else {
        return false;
    };
    message_of(first) == CALL && message_of(second) == REPLY && message_of(third) == WRITE_CALL
}

/// Whether a history has the example's three calls.
fn has_calls(history: &History) -> bool {
    if history.calls() != 3 || history.find_call(0).is_some() || history.find_call(4).is_some() {
        return false;
    }
    let third = history.call(3).lane == 2 && history.begin(3) == 5 && history.end(3) == Some(6);
    third && history.era(2) == 1 && history.outcome(1).is_some()
}

/// Whether the example is read, with its events and calls.
fn is_read(alloc: Global) -> Result<bool, HistoryFault> {
    let history = example(alloc)?;
    Ok(are_shown(history.events()) && has_calls(&history))
}

#[test]
fn a_history_shows_its_events_and_calls(rt: HostRuntime) -> Result<(), Fail> {
    assert!(rt; is_read(rt.alloc())?);
    Ok(())
}

/// When the last call began, and when it ended.
fn ends(history: &History) -> (u64, Option<u64>) {
    match history.recorded_calls() {
        [.., last] => (last.begin, last.end),
        [] => (0, None),
    }
}

/// An event after the CREATE and its reply, and when the last call begins and ends then.
const BUILT: [(Happened, (u64, Option<u64>)); 2] = [
    (Happened::Closed(1), (1, Some(2))),
    (Happened::Asked(1, 2, WRITE), (3, None)),
];

/// Whether a history of these three events has its root, and a last call with this begin and end.
fn is_built(alloc: Global, last: Happened, want: (u64, Option<u64>)) -> Result<bool, HistoryFault> {
    let list = [Happened::Done(1, 1, CREATE), last];
    let history = built(alloc, &list)?;
    let whole = history.events().len() == 3 && history.root().as_slice() == [0].as_slice();
    Ok(whole && ends(&history) == want)
}

#[test]
fn a_history_is_built_of_events(rt: HostRuntime) -> Result<(), Fail> {
    for (last, want) in BUILT {
        assert!(rt; is_built(rt.alloc(), last, want)?);
    }
    Ok(())
}

const READ: Happened = Happened::Asked(2, 3, Request::Read(0xaa, b"abc"));

const WAS_READ: Happened = Happened::Done(2, 3, Request::Read(0xaa, b"abc"));

const CREATED: Happened = Happened::Asked(1, 1, CREATE);

/// Events of a file, how many eras they have, and the era of each call.
const ERAS: &[(&[Happened], u64, &[u64])] = &[
    (&[], 1, &[]),
    (&[Happened::Crashed, WAS_READ], 2, &[2]),
    (&[WAS_READ, Happened::Crashed], 2, &[1]),
    (&[Happened::Crashed, Happened::Crashed, READ], 3, &[3]),
    (
        &[CREATED, Happened::Crashed, Happened::Crashed, READ],
        3,
        &[1, 3],
    ),
    (&[CREATED, Happened::Crashed, WAS_READ], 2, &[1, 2]),
    (&[Happened::Closed(1), Happened::Crashed, READ], 2, &[2]),
];

/// Whether the calls have these eras.
fn calls_have(history: &History, eras: &[u64]) -> bool {
    for index in 0..history.calls() {
        match eras.get(index as usize) {
            Some(era) if history.era(index + 1) == *era => {}
            _ => return false,
        }
    }
    eras.len() as u64 == history.calls()
}

/// Whether a file has so many eras, and calls of these.
fn has_eras(alloc: Global, file: &[u8], eras: u64, of_calls: &[u64]) -> Result<bool, HistoryFault> {
    let history = read_history(alloc, file)?;
    Ok(history.eras() == eras && calls_have(&history, of_calls))
}

#[test]
fn each_call_has_its_era(rt: HostRuntime) -> Result<(), Fail> {
    for (list, eras, of_calls) in ERAS {
        let file = file(rt.alloc(), list)?;
        assert!(rt; has_eras(rt.alloc(), file.as_slice(), *eras, of_calls)?);
    }
    Ok(())
}
