//! When the calls and the crashes of a history begin and end.

ghost use Rattle.std.specs.Prelude.{◌≡◌, ◌++◌, ◌∷◌, [], ◌+◌, ◌<◌, ◌^◌, ℕ, List, cond, length, IfOk};
ghost use Rattle.history_file.specs.Owning.{happened, all_happened};
ghost use Rattle.order_check.specs.Places.{is_wanted};
ghost use Rattle.decision_walk.specs.decision_law_specs.Times.{may_stand, may_be_taken};
ghost use Rattle.decide.specs.Spanning.{noted, crash_list, call_span, call_spans, crash_spans, all_spans};

use decision_core::Span;
use nfs_history::{Event, History, Meaning, RecordedCall};
use std::alloc::{AllocError, Global};

/// Notes where a crash is, if the event is one.
fn note_crash(marks: &mut Vec<u64>, event: &Event, number: u64) -> Result<(), AllocError>
    ensures { IfOk result (λ _. (rest : List ℕ) → marks.new.items ++ rest ≡ marks.old.items ++ noted number (happened event.now) rest) }
{
    if let Event::Crash = event {
        marks.push(number)?;
    }
    Ok(())
}

/// Where the crashes are, and where the events end.
pub(crate) fn crash_marks(alloc: Global, events: &[Event]) -> Result<Vec<u64>, AllocError>
    ensures { IfOk result (λ marks. marks.items ≡ crash_list 1 (all_happened events.now)) }
{
    let mut marks = Vec::new(alloc);
    for index in 0..events.len() {
        note_crash(&mut marks, &events[index], index as u64 + 1)?;
    }
    marks.push(events.len() as u64 + 1)?;
    Ok(marks)
}

/// Whether a call was judged and answered, so that it has to have a place.
fn is_wanted(recorded: &RecordedCall) -> bool
    ensures { result ≡ is_wanted recorded.now }
{
    match &recorded.meaning {
        Meaning::Judged(_call) => recorded.outcome.is_some(),
        Meaning::Unjudged => false,
    }
}

/// Whether a call changes the tree, and had no reply.
fn may_be_taken(recorded: &RecordedCall) -> bool
    ensures { result ≡ may_be_taken recorded.now }
{
    if recorded.end.is_some() {
        return false;
    }
    match &recorded.meaning {
        Meaning::Judged(call) => call.procedure().changes_the_tree(),
        Meaning::Unjudged => false,
    }
}

/// Puts the span of a call there, if it may have a place.
fn put_call(spans: &mut Vec<Span>, recorded: &RecordedCall, number: u64) -> Result<(), AllocError>
    ensures { IfOk result (λ _. spans.new.items ≡ spans.old.items ++ cond (may_stand recorded.now) (call_span number recorded.now ∷ []) []) }
{
    let begin = recorded.begin;
    if is_wanted(recorded) {
        let end = recorded.end;
        spans.push(Span { number, begin, end })?;
    } else if may_be_taken(recorded) {
        let end = None;
        spans.push(Span { number, begin, end })?;
    }
    Ok(())
}

/// Puts the spans of calls there.
fn put_calls(spans: &mut Vec<Span>, calls: &[RecordedCall]) -> Result<(), AllocError>
    ensures { IfOk result (λ _. spans.new.items ≡ spans.old.items ++ call_spans 1 calls.now) }
{
    for index in 0..calls.len() {
        put_call(spans, &calls[index], index as u64 + 1)?;
    }
    Ok(())
}

/// Puts the spans of crashes there.
fn put_crashes(spans: &mut Vec<Span>, marks: &[u64], first: u64) -> Result<(), AllocError>
    requires { first + length marks.now < 2 ^ 64 }
    ensures { IfOk result (λ _. spans.new.items ≡ spans.old.items ++ crash_spans first marks.now) }
{
    for index in 0..marks.len() {
        let number = first + index as u64;
        let begin = marks[index];
        let end = Some(begin);
        spans.push(Span { number, begin, end })?;
    }
    Ok(())
}

/// The spans of the calls and of the crashes, which stand there.
pub(crate) fn spans_of(
    alloc: Global,
    history: &History,
    marks: &[u64],
) -> Result<Vec<Span>, AllocError>
    ensures { IfOk result (λ spans. spans.items ≡ all_spans history.now.known marks.now) }
{
    let mut spans = Vec::new(alloc);
    let calls = history.recorded_calls();
    put_calls(&mut spans, calls)?;
    put_crashes(&mut spans, marks, calls.len() as u64 + 1)?;
    Ok(spans)
}
