//! What becomes of a history to which events are appended one by one. Each fault is a case of `command_cases`.

use crate::histories::{Happened, answered, built};
use crate::reading::{CREATE, WRITE, example};
use nfs_history::{Event, History, HistoryFault, Meaning, RecordedCall};
use std::alloc::{AllocError, Global};
use std::test::Fail;

/// What the events of another history give, appended one by one.
fn appended(alloc: Global, other: &History) -> Result<History, HistoryFault> {
    let mut history = built(alloc, &[])?;
    for event in other.events() {
        let copy = Event::from_seen(alloc, &event.as_seen())?;
        history.append(copy)?;
    }
    Ok(history)
}

/// Whether two calls began and ended alike, were judged or not, and have outcomes or not.
fn is_same(call: &RecordedCall, other: &RecordedCall) -> bool {
    let judged = matches!(call.meaning, Meaning::Judged(_));
    let both = (call.lane, call.xid) == (other.lane, other.xid)
        && (call.begin, call.end, call.era) == (other.begin, other.end, other.era);
    both && judged == matches!(other.meaning, Meaning::Judged(_))
        && call.outcome.is_some() == other.outcome.is_some()
}

/// Whether two histories have as many events and eras, and the same calls.
fn are_same(history: &History, other: &History) -> bool {
    if history.events().len() != other.events().len() || history.eras() != other.eras() {
        return false;
    }
    let (calls, others) = (history.recorded_calls(), other.recorded_calls());
    for (call, other) in calls.iter().zip(others) {
        if !is_same(call, other) {
            return false;
        }
    }
    calls.len() == others.len()
}

/// Whether a history with so many events, calls and eras is what its events give, appended one by one.
fn is_as_appended(
    alloc: Global,
    history: &History,
    (events, calls, eras): (usize, u64, u64),
) -> Result<bool, HistoryFault> {
    let appended = appended(alloc, history)?;
    let counted = history.events().len() == events
        && history.calls() == calls
        && history.eras() == eras;
    Ok(counted && are_same(&appended, history))
}

#[test]
fn events_one_by_one_give_what_is_read(rt: HostRuntime) -> Result<(), Fail> {
    let history = example(rt.alloc())?;
    assert!(rt; is_as_appended(rt.alloc(), &history, (6, 3, 1))?);
    Ok(())
}

/// Why an event isn't appended, if the history stays as it was.
fn refusal(history: &mut History, event: Event) -> Option<HistoryFault> {
    let before = (history.events().len(), history.calls(), history.eras());
    match history.append(event) {
        Ok(()) => None,
        Err(fault) => {
            let after = (history.events().len(), history.calls(), history.eras());
            if after == before { Some(fault) } else { None }
        }
    }
}

/// Whether a crash is appended to the example's events, after a reply to no call was refused.
fn goes_on(alloc: Global) -> Result<bool, HistoryFault> {
    let read = example(alloc)?;
    let mut history = appended(alloc, &read)?;
    let unasked = answered(alloc, 1, 9, CREATE)?;
    let refused = refusal(&mut history, unasked) == Some(HistoryFault::NoSuchCall(7));
    history.reserve()?;
    history.append(Event::Crash)?;
    Ok(refused && history.eras() == 2)
}

#[test]
fn a_history_goes_on_after_a_refusal(rt: HostRuntime) -> Result<(), Fail> {
    assert!(rt; goes_on(rt.alloc())?);
    Ok(())
}

/// Event `number` of a long history: two calls, a reply to the first, and a close or, at each tenth time, a crash.
fn long_event(number: u32) -> Happened {
    let round = number / 4;
    let lane = round / 10 + 1;
    match number % 4 {
        0 => Happened::Asked(lane, number, CREATE),
        1 => Happened::Asked(lane, number, WRITE),
        2 => Happened::Answered(lane, number - 2, CREATE),
        _ if round % 10 == 9 => Happened::Crashed,
        _ => Happened::Closed(100 + round),
    }
}

/// The long history, which is built of its events.
fn long_history(alloc: Global) -> Result<History, HistoryFault> {
    let mut list = Vec::new(alloc);
    for number in 0..200 {
        list.push(long_event(number))?;
    }
    built(alloc, list.as_slice())
}

#[test]
fn many_events_give_what_is_built_of_them(rt: HostRuntime) -> Result<(), Fail> {
    let history = long_history(rt.alloc())?;
    assert!(rt; is_as_appended(rt.alloc(), &history, (200, 100, 6))?);
    Ok(())
}
