//! Why a history file is refused.

use crate::lanes::{end_of_lane, lane_of, last_call, message_of, reply_to, transaction_of};
use crate::messages::{push_arguments_fault, push_head_fault, push_result_fault};
use crate::places::{Found, FoundEvent, Sought, find};
use history_file::{FileFault, SeenEvent};
use history_lines::{BegunFile, Text};
use history_prefix::wanted;
use nfs_history::HistoryFault;
use std::alloc::{AllocError, Global};

/// How many bytes of a message are shown.
const SHOWN: usize = 64;

/// How many bytes are shown where an event can't be read.
const SHOWN_AHEAD: usize = 16;

/// Appends a line.
pub(crate) fn push_line(lines: &mut Vec<u8>, text: Text<'_>) -> Result<(), AllocError> {
    let line = text.into_line()?;
    lines.extend_from_slice(line.as_slice())?;
    Ok(())
}

/// What is looked for in the file, to tell of a fault.
fn sought_for(fault: HistoryFault) -> Sought {
    match fault {
        HistoryFault::BadEvent(event)
        | HistoryFault::LaneClosed(event)
        | HistoryFault::BadRpc(event)
        | HistoryFault::XidInUse(event)
        | HistoryFault::NoSuchCall(event) => Sought::Event(event),
        HistoryFault::Sealed(call)
        | HistoryFault::BadArgs(call)
        | HistoryFault::BadResult(call)
        | HistoryFault::Outside { call, .. } => Sought::Call(call),
        // There is no such event: all of them are read.
        _ => Sought::Event(0),
    }
}

/// Appends the first of some bytes in hexadecimal, behind words.
fn push_front(
    text: &mut Text<'_>,
    words: &str,
    bytes: &[u8],
    most: usize,
) -> Result<(), AllocError> {
    text.push_words(words)?;
    match bytes.split_at_checked(most) {
        Some((front, [_, ..])) => {
            text.push_hex(front)?;
            text.push_words("..")
        }
        _ => text.push_hex(bytes),
    }
}

/// What an event is.
fn kind_words(event: &SeenEvent<'_>) -> &'static str {
    match event {
        SeenEvent::Call { .. } => ": a call",
        SeenEvent::Reply { .. } => ": a reply",
        SeenEvent::Close { .. } => ": a close",
        SeenEvent::Crash => ": a crash",
    }
}

/// A line of an event.
fn push_event(
    lines: &mut Vec<u8>,
    alloc: Global,
    found: &FoundEvent<'_>,
) -> Result<(), AllocError> {
    let mut text = Text::new(alloc);
    text.push_number("event ", found.number)?;
    text.push_number(" begins at byte ", found.offset)?;
    text.push_words(kind_words(&found.event))?;
    if let Some(lane) = lane_of(&found.event) {
        text.push_number(" on lane ", u64::from(lane))?;
    }
    push_line(lines, text)
}

/// A line of the message of an event, where it has one.
fn push_message(
    lines: &mut Vec<u8>,
    alloc: Global,
    found: &FoundEvent<'_>,
) -> Result<(), AllocError> {
    let message = message_of(&found.event);
    if message.is_empty() {
        return Ok(());
    }
    let mut text = Text::new(alloc);
    text.push_number("  its message has ", message.len() as u64)?;
    push_front(&mut text, " bytes: ", message, SHOWN)?;
    push_line(lines, text)
}

/// A line of the earlier event with which an event is at fault, where there is one.
fn push_earlier(
    lines: &mut Vec<u8>,
    alloc: Global,
    bytes: &[u8],
    begun: &BegunFile<'_>,
    found: &FoundEvent<'_>,
    fault: HistoryFault,
) -> Result<(), AllocError> {
    let transaction = transaction_of(message_of(&found.event));
    let (earlier, words) = match (fault, transaction) {
        (HistoryFault::LaneClosed(_), _) => (
            end_of_lane(bytes, begun, found),
            "  the lane ended by event ",
        ),
        (HistoryFault::XidInUse(_), Some(number)) => (
            last_call(bytes, begun, found, number),
            "  the number is that of event ",
        ),
        (HistoryFault::NoSuchCall(_), Some(number)) => (
            last_call(bytes, begun, found, number),
            "  the last call of the lane with its number is event ",
        ),
        _ => return Ok(()),
    };
    let mut text = Text::new(alloc);
    match earlier {
        Some(event) => text.push_number(words, event)?,
        None => text.push_words("  no call of the lane has its number")?,
    }
    push_line(lines, text)
}

/// Lines of the reply to a call, whose result is at fault.
fn push_reply(
    lines: &mut Vec<u8>,
    alloc: Global,
    call: &FoundEvent<'_>,
    reply: &FoundEvent<'_>,
) -> Result<(), AllocError> {
    push_event(lines, alloc, reply)?;
    push_message(lines, alloc, reply)?;
    push_result_fault(
        lines,
        alloc,
        message_of(&call.event),
        message_of(&reply.event),
    )
}

/// Lines of what more the file tells of a fault.
fn push_more(
    lines: &mut Vec<u8>,
    alloc: Global,
    bytes: &[u8],
    begun: &BegunFile<'_>,
    found: &FoundEvent<'_>,
    fault: HistoryFault,
) -> Result<(), AllocError> {
    match fault {
        HistoryFault::BadRpc(_) => push_head_fault(lines, alloc, &found.event),
        HistoryFault::BadArgs(_) => push_arguments_fault(lines, alloc, message_of(&found.event)),
        HistoryFault::BadResult(_) => match reply_to(bytes, begun, found) {
            Some(reply) => push_reply(lines, alloc, found, &reply),
            None => Ok(()),
        },
        _ => push_earlier(lines, alloc, bytes, begun, found, fault),
    }
}

/// The same, of a file.
fn push_more_in(
    lines: &mut Vec<u8>,
    alloc: Global,
    bytes: &[u8],
    found: &FoundEvent<'_>,
    fault: HistoryFault,
) -> Result<(), AllocError> {
    match BegunFile::of_file(alloc, bytes) {
        Ok(begun) => push_more(lines, alloc, bytes, &begun, found, fault),
        Err(FileFault::NoMemory) => Err(AllocError),
        Err(_) => Ok(()),
    }
}

/// Lines of an event at fault.
fn push_found(
    lines: &mut Vec<u8>,
    alloc: Global,
    bytes: &[u8],
    found: &FoundEvent<'_>,
    fault: HistoryFault,
) -> Result<(), AllocError> {
    push_event(lines, alloc, found)?;
    push_message(lines, alloc, found)?;
    push_more_in(lines, alloc, bytes, found, fault)
}

/// Lines of where the events end that can be read.
fn push_end(
    lines: &mut Vec<u8>,
    alloc: Global,
    bytes: &[u8],
    number: u64,
    offset: u64,
) -> Result<(), AllocError> {
    let mut text = Text::new(alloc);
    text.push_number("events that can be read: ", number)?;
    text.push_number("; they end at byte ", offset)?;
    text.push_number(" of ", bytes.len() as u64)?;
    push_line(lines, text)?;
    match bytes.get(offset as usize..) {
        Some(rest) if !rest.is_empty() => {
            let mut text = Text::new(alloc);
            push_front(&mut text, "  then comes ", rest, SHOWN_AHEAD)?;
            push_line(lines, text)
        }
        _ => Ok(()),
    }
}

/// Lines of a file of which not even what is ahead of the first event can be read.
fn push_no_start(lines: &mut Vec<u8>, alloc: Global, bytes: &[u8]) -> Result<(), AllocError> {
    let mut text = Text::new(alloc);
    text.push_number("the file has ", bytes.len() as u64)?;
    push_front(&mut text, " bytes: ", bytes, SHOWN_AHEAD)?;
    push_line(lines, text)?;
    let mut text = Text::new(alloc);
    text.push_words("  what is ahead of its first event can't be read")?;
    push_line(lines, text)
}

/// Why a history file with this fault is refused, as lines of printable bytes: the event at fault with its bytes, and what is wanted there.
/// An `Err` means that memory ran out.
pub fn refused_history(
    alloc: Global,
    bytes: &[u8],
    fault: HistoryFault,
) -> Result<Vec<u8>, AllocError> {
    let mut lines = Vec::new(alloc);
    match find(alloc, bytes, sought_for(fault))? {
        Found::Event(found) => push_found(&mut lines, alloc, bytes, &found, fault)?,
        Found::NoStart => push_no_start(&mut lines, alloc, bytes)?,
        Found::End { number, offset } => push_end(&mut lines, alloc, bytes, number, offset)?,
    }
    let mut text = Text::new(alloc);
    text.push_words("wanted: ")?;
    text.push_words(wanted(fault))?;
    push_line(&mut lines, text)?;
    Ok(lines)
}
