//! The events of a walk, out of when each call begins and is answered.

ghost use Rattle.std.specs.Prelude.{IsTrue, IfOk, IfSome};
ghost use Rattle.decision_core.specs.Times.{Times};
ghost use Rattle.decision_core.specs.Events.{Tells};
ghost use Rattle.decision_core.specs.Spanned.{IsPut, AddsSpan, AreSpansOf};

use crate::deciding::Event;
use std::alloc::{AllocError, Global};

/// A call, or a crash, with the events at which it begins and is answered, from 1. One that is answered where it begins is sent and
/// answered at once.
#[derive(Clone, Copy)]
pub struct Span {
    /// Its number.
    pub number: u64,
    /// The event at which it begins.
    pub begin: u64,
    /// The event at which it is answered.
    pub end: Option<u64>,
}

/// Puts an event to a place, from 1, where there is none.
fn put_event(events: &mut Vec<Event>, at: u64, event: Event) -> bool
    ensures { IsTrue result → IsPut at event events.old.items events.new.items }
{
    if at == 0 {
        return false;
    }
    let index = at as usize - 1;
    if index >= events.len() {
        return false;
    }
    match events[index] {
        Event::Passed => {}
        Event::Called(_n) => return false,
        Event::Answered(_n) => return false,
        Event::AtOnce(_n) => return false,
    }
    events[index] = event;
    true
}

/// Puts the begin and the end of a call to their places.
fn put_answered(events: &mut Vec<Event>, number: u64, begin: u64, end: u64) -> bool
    ensures { IsTrue result → AddsSpan number begin (Some end) events.old.items events.new.items }
{
    if end == begin {
        return put_event(events, begin, Event::AtOnce(number));
    }
    if !put_event(events, begin, Event::Called(number)) {
        return false;
    }
    put_event(events, end, Event::Answered(number))
}

/// The same of a call that may have no answer.
fn put_span(events: &mut Vec<Event>, span: Span) -> bool
    ensures { IsTrue result → AddsSpan span.number span.begin span.end events.old.items events.new.items }
{
    match span.end {
        Some(end) => put_answered(events, span.number, span.begin, end),
        None => put_event(events, span.begin, Event::Called(span.number)),
    }
}

/// So many events, those of these calls and crashes at their places. None, where two of them would stand at one place, or one behind
/// the last.
pub fn timeline(
    alloc: Global,
    spans: &[Span],
    count: usize,
) -> Result<Option<Vec<Event>>, AllocError>
    ensures { IfOk result (λ found. IfSome found (λ events. (times : Times) → AreSpansOf times spans.now → Tells times events.items)) }
{
    let mut events = Vec::from_elem(alloc, Event::Passed, count)?;
    for span in spans {
        if !put_span(&mut events, *span) {
            return Ok(None);
        }
    }
    Ok(Some(events))
}
