//! The files that say why a night's last line isn't yes.

use crate::folder::Folder;
use explaining_command::deciding_command::{Effort, FileDecision};
use explaining_command::decision_text;
use history_picture::{Page, Request, Window, picture_of, picture_page};
use nfs_history::{HistoryFault, KnownCalls, read_calls};
use night_report::{NightReport, explanation};
use recording_command::RecordingRuntime;
use std::alloc::{AllocError, Global};

/// How many events are drawn ahead of what no order explains, and behind it.
const MARGIN: u64 = 12;

/// What a night was judged by.
#[derive(Clone, Copy)]
pub(crate) struct Grounds<'n> {
    /// The bytes of its history.
    pub(crate) history: &'n [u8],
    /// What was decided of it.
    pub(crate) decision: &'n FileDecision,
    /// What that may cost.
    pub(crate) effort: Effort,
}

/// The picture of the events around a call, or around the event where the history has no such call.
fn page_of_calls<'a>(
    alloc: Global,
    caption: &str,
    history: &'a [u8],
    known: &KnownCalls<'a>,
    event: u64,
    call: u64,
) -> Result<Page, AllocError> {
    let fault = known.kind(call).map(|_| call);
    let window = match fault {
        Some(call) => Window::Around {
            first: call,
            last: call,
            events: MARGIN,
        },
        None => Window::Events {
            first: event.saturating_sub(MARGIN),
            last: event.saturating_add(MARGIN),
        },
    };
    let request = Request {
        caption: caption.as_bytes(),
        window,
        asked: None,
        fault,
        explaining: &[],
    };
    let Ok(picture) = picture_of(alloc, history, known, None, &request) else {
        // The bytes were read before, so it is for want of memory.
        return Err(AllocError);
    };
    picture_page(alloc, &picture)
}

/// The same of a history file; none where it is the file of none.
fn page_around(
    alloc: Global,
    caption: String,
    history: &[u8],
    event: u64,
    call: u64,
) -> Result<Option<Page>, AllocError> {
    let known = match read_calls(alloc, history) {
        Ok(known) => known,
        Err(HistoryFault::NoMemory) => return Err(AllocError),
        Err(_) => return Ok(None),
    };
    let page = page_of_calls(alloc, caption.as_str(), history, &known, event, call)?;
    Ok(Some(page))
}

/// The picture of what no order explains, or of the event after the last one up to which some order was found; none where some order explains all.
fn page_of(alloc: Global, path: &str, grounds: Grounds<'_>) -> Result<Option<Page>, AllocError> {
    match grounds.decision {
        FileDecision::NoWitness { event, call } => {
            let caption = format!(in alloc;
                "{path}/history: no witness: event {event} call {call}"
            )?;
            page_around(alloc, caption, grounds.history, *event, *call)
        }
        FileDecision::Undecided(undecided) => {
            let event = undecided.reached.event;
            let caption = format!(in alloc; "{path}/history: undecided after event {event}")?;
            // No call has number 0.
            page_around(alloc, caption, grounds.history, event.saturating_add(1), 0)
        }
        FileDecision::Yes(_) | FileDecision::BadHistory(_) => Ok(None),
    }
}

/// Writes such a picture, where there is one. Whether it is there now, if it is to be.
fn write_picture<R: RecordingRuntime>(
    rt: &R,
    folder: Folder<'_>,
    grounds: Grounds<'_>,
) -> Result<bool, AllocError> {
    match page_of(rt.alloc(), folder.path, grounds)? {
        Some(page) => folder.write(rt, "picture.html", page.as_slice()),
        None => Ok(true),
    }
}

/// What is told of a night whose last line isn't yes, with the reason of what was decided of its history.
fn told<R: RecordingRuntime>(
    rt: &R,
    grounds: Grounds<'_>,
    report: &NightReport<'_>,
) -> Result<Vec<u8>, AllocError> {
    let told = explanation(rt.alloc(), report)?;
    let mut bytes = Vec::from_slice(rt.alloc(), told.as_bytes())?;
    let reason = decision_text(rt, grounds.history, grounds.decision, grounds.effort)?;
    if !reason.is_empty() {
        let heading = match grounds.decision {
            FileDecision::Undecided(_) => "\nHow far some order goes:\n",
            _ => "\nWhat no order explains:\n",
        };
        bytes.extend_from_slice(heading.as_bytes())?;
        bytes.extend_from_slice(reason.as_slice())?;
    }
    Ok(bytes)
}

/// Writes the files that say why a night's last line isn't yes. Whether each is there now.
pub(crate) fn write_why<R: RecordingRuntime>(
    rt: &R,
    folder: Folder<'_>,
    grounds: Grounds<'_>,
    report: &NightReport<'_>,
) -> Result<bool, AllocError> {
    let told = told(rt, grounds, report)?;
    let is_told = folder.write(rt, "explanation", told.as_slice())?;
    let is_drawn = write_picture(rt, folder, grounds)?;
    Ok(is_told && is_drawn)
}
