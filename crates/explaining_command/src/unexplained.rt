//! What is known of a reply that no order explains.

use crate::behind::{Behind, Told};
use deciding_command::{Effort, FileDecision, decide_file, report_of};
use nfs_history::{HistoryFault, KnownCalls, read_calls};
use order_words::{events_front, order_text};
use reason_words::unexplained_text;
use std::alloc::{AllocError, Global};
use std::io::Eprint;
use std::time::Clock;

/// A line of a crash that no order explains.
fn crash_line(alloc: Global, event: u64) -> Result<Vec<u8>, AllocError> {
    let line = format!(in alloc;
        "event {event} is a crash: no order of the calls before it can be cut there\n"
    )?;
    Vec::from_slice(alloc, line.as_bytes())
}

/// Lines of the call; of a crash where the history has no such call.
fn call_lines(
    alloc: Global,
    history: &KnownCalls<'_>,
    event: u64,
    call: u64,
) -> Result<Vec<u8>, AllocError> {
    match history.kind(call) {
        Some(_) => unexplained_text(alloc, history, call),
        None => crash_line(alloc, event),
    }
}

/// The file of so many first events, where there are so many.
fn front(alloc: Global, history: &[u8], events: u64) -> Result<Option<Vec<u8>>, AllocError> {
    match u32::try_from(events) {
        Ok(events) => events_front(alloc, history, events),
        Err(_) => Ok(None),
    }
}

/// A line that no order of the events before is known, with what `decide` says of them.
fn unknown_line(alloc: Global, decision: &FileDecision) -> Result<Vec<u8>, AllocError> {
    let told = report_of(alloc, decision)?;
    let mut line = Vec::from_slice(alloc, b"no order of the events before it was found: ")?;
    line.extend_from_slice(told.line().as_bytes())?;
    Ok(line)
}

/// Lines of what the orders come to in which the call is placed, over a certificate of the events before.
fn orders_over(
    alloc: Global,
    history: &[u8],
    known: &KnownCalls<'_>,
    certificate: &[u8],
    event: u64,
    call: u64,
) -> Result<Vec<u8>, AllocError> {
    match front(alloc, history, event)? {
        Some(upto) => order_text(alloc, known, upto.as_slice(), certificate, call),
        None => Ok(Vec::new(alloc)),
    }
}

/// Lines of what the orders come to in which the call is placed.
fn order_lines<R: Clock + Eprint + AllocGlobal>(
    rt: &R,
    history: &[u8],
    known: &KnownCalls<'_>,
    event: u64,
    call: u64,
    effort: Effort,
) -> Result<Vec<u8>, AllocError> {
    let alloc = rt.alloc();
    let Some(before) = front(alloc, history, event.saturating_sub(1))? else {
        return Ok(Vec::new(alloc));
    };
    let decision = decide_file(rt, before.as_slice(), effort)?;
    match &decision {
        FileDecision::Yes(certificate) => {
            orders_over(alloc, history, known, certificate.as_slice(), event, call)
        }
        _ => unknown_line(alloc, &decision),
    }
}

/// Lines of what is known of a reply, or of a crash, of a history that was read.
fn lines_behind<R: Clock + Eprint + AllocGlobal>(
    rt: &R,
    history: &[u8],
    known: &KnownCalls<'_>,
    event: u64,
    call: u64,
    effort: Effort,
) -> Result<Vec<u8>, AllocError> {
    let mut lines = call_lines(rt.alloc(), known, event, call)?;
    let orders = order_lines(rt, history, known, event, call, effort)?;
    lines.extend_from_slice(orders.as_slice())?;
    Ok(lines)
}

/// What is known of a reply, or of a crash, that no order explains.
pub(crate) fn behind_no<R: Clock + Eprint + AllocGlobal>(
    rt: &R,
    history: &[u8],
    event: u64,
    call: u64,
    effort: Effort,
) -> Result<Behind, AllocError> {
    let lines = match read_calls(rt.alloc(), history) {
        Ok(known) => lines_behind(rt, history, &known, event, call, effort)?,
        Err(HistoryFault::NoMemory) => return Err(AllocError),
        Err(_) => Vec::new(rt.alloc()),
    };
    Ok(Behind {
        told: Some(Told::NoWitness { event, call }),
        right: None,
        lines,
    })
}
