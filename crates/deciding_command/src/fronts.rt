//! What is said where nothing is decided: how far it came, and the events that some order explains. No theorem speaks of it.

use crate::file_decision::FileDecision;
use crate::prefixing::is_written;
use crate::reached::reached_text;
use crate::within_time::decide_within;
use crate::words::DecideRequest;
use certificate::{Certificate, write_certificate};
use decide::Decision;
use history_file::Version;
use history_prefix::{file_as, kept_history};
use nfs_history::{History, HistoryFault, read_history};
use std::alloc::{AllocError, Global};
use std::fs;
use std::io::{Eprint, ErrorKind};
use std::rt::Files;
use std::time::Clock;

/// The history of so many first events, without the replies that come later.
fn first_events(alloc: Global, bytes: &[u8], events: u64) -> Result<History, HistoryFault> {
    let whole = read_history(alloc, bytes)?;
    let mut marks = Vec::with_capacity(alloc, whole.events().len())?;
    for index in 0..whole.events().len() {
        marks.push((index as u64) < events)?;
    }
    if marks.len() != whole.events().len() {
        return Err(HistoryFault::NoMemory);
    }
    kept_history(alloc, &whole, marks.as_slice())
}

/// Writes a history and a certificate to a folder, which is made if it isn't there. Whether both are there now; why not is said on standard error.
fn is_saved<R: Files + AllocGlobal + Eprint>(
    rt: &R,
    request: &DecideRequest<'_>,
    folder: &str,
    front: &History,
    certificate: &Certificate,
) -> Result<bool, AllocError> {
    let alloc = rt.alloc();
    let Ok(history) = file_as(alloc, Version::Second, front) else {
        return Err(AllocError);
    };
    let Ok(text) = write_certificate(alloc, certificate) else {
        return Err(AllocError);
    };
    if let Err(error) = fs::create_dir(rt, folder)
        && error.kind() != ErrorKind::AlreadyExists
    {
        let _ = eprintln!(rt; "nfsbench: {folder}: {error}");
        return Ok(false);
    }
    let history_path = format!(in alloc; "{folder}/history")?;
    let text_path = format!(in alloc; "{folder}/certificate")?;
    Ok(
        is_written(
            rt,
            history_path.as_str(),
            request.history,
            history.as_slice(),
        ) && is_written(rt, text_path.as_str(), request.history, text.as_slice()),
    )
}

/// Looks for an order of so many first events, and writes both to a folder.
fn save_front<R: Files + Clock + AllocGlobal + Eprint>(
    rt: &R,
    request: &DecideRequest<'_>,
    bytes: &[u8],
    folder: &str,
    events: u64,
) -> Result<(), AllocError> {
    let front = match first_events(rt.alloc(), bytes, events) {
        Ok(front) => front,
        Err(HistoryFault::NoMemory) => return Err(AllocError),
        Err(fault) => {
            let _ = eprintln!(rt; "nfsbench: {folder}: nothing is written: {fault}");
            return Ok(());
        }
    };
    let (decision, _reached) = decide_within(rt, &front, request.effort);
    if let Decision::Yes(certificate) = decision {
        if is_saved(rt, request, folder, &front, &certificate)? {
            let _ = eprintln!(rt;
                "hint: {folder}/history has events 1 to {events}, and check says yes to it with {folder}/certificate"
            );
        }
    } else {
        let _ = eprintln!(rt;
            "nfsbench: {folder}: nothing is written: no order of events 1 to {events} alone was found"
        );
    }
    Ok(())
}

/// Says on standard error how far an undecided decision came, and writes the front that is asked for.
pub(crate) fn tell_undecided<R: Files + Clock + AllocGlobal + Eprint>(
    rt: &R,
    request: &DecideRequest<'_>,
    bytes: &[u8],
    decision: &FileDecision,
) {
    let FileDecision::Undecided(undecided) = decision else {
        return;
    };
    let reached = undecided.reached;
    match reached_text(rt.alloc(), bytes, reached) {
        Ok(text) => {
            let _ = eprint!(rt; "{text}");
        }
        Err(AllocError) => {
            let _ = eprintln!(rt; "nfsbench: no hints: out of memory");
        }
    }
    if let Some(folder) = request.front
        && save_front(rt, request, bytes, folder, reached.event).is_err()
    {
        let _ = eprintln!(rt; "nfsbench: {folder}: nothing is written: out of memory");
    }
}
