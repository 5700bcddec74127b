//! Histories that are read, built and appended to, and their lines.

use anyhow::Result;
use history_file::{SeenRecording, copy_events, read_file};
use history_lines::{EventLines, Look, Selection};
use nfs_history::{Event, History, HistoryFault, Start, read_history};
use nfs3_types::FileHandle;
use std::alloc::Global;
use std::io::{self, Write};

// The history of the events, after what a file says of its beginning.
fn built(
    alloc: Global,
    seen: &SeenRecording<'_>,
    events: Vec<Event>,
) -> Result<History, HistoryFault> {
    if seen.root.len() > 64 {
        return Err(HistoryFault::TooLarge);
    }
    let root = FileHandle::from_slice(alloc, seen.root)?;
    let start = Start::of_seen(alloc, &seen.start)?;
    History::build_from(alloc, root, seen.profile, start, events)
}

// The history to which the events are appended one by one.
fn appended(
    alloc: Global,
    seen: &SeenRecording<'_>,
    events: Vec<Event>,
) -> Result<History, HistoryFault> {
    let mut history = built(alloc, seen, Vec::new(alloc))?;
    for event in events {
        history.append(event)?;
    }
    Ok(history)
}

// Says after a word whether a history was made, or its fault.
fn put_made(
    answer: &mut Vec<u8>,
    word: &str,
    made: Result<History, HistoryFault>,
) -> io::Result<()> {
    match made {
        Ok(_) => write!(answer, "{word}ok"),
        Err(fault) => write!(answer, "{word}{fault}"),
    }
}

/// Says what becomes of the events of a history file that are read as a history, built as one, and appended one by one. Of bytes that
/// are no file only the first is said.
pub fn put_built(alloc: Global, answer: &mut Vec<u8>, text: &str) -> Result<()> {
    let bytes = hex::decode(alloc, text)?;
    put_made(answer, " ", read_history(alloc, bytes.as_slice()))?;
    if let Ok(seen) = read_file(alloc, bytes.as_slice()) {
        let events = copy_events(alloc, seen.events.as_slice())?;
        put_made(answer, ", ", built(alloc, &seen, events))?;
        let events = copy_events(alloc, seen.events.as_slice())?;
        put_made(answer, ", ", appended(alloc, &seen, events))?;
    }
    writeln!(answer)?;
    Ok(())
}

// Appends the lines of some events.
fn push_lines(
    alloc: Global,
    answer: &mut Vec<u8>,
    bytes: &[u8],
    selection: Selection,
) -> Result<()> {
    let mut lines = EventLines::new(alloc, bytes, Look::at(selection))?;
    for _ in 0..u64::MAX {
        let Some(line) = lines.next_line()? else {
            break;
        };
        answer.extend_from_slice(line.as_slice())?;
    }
    Ok(())
}

/// Says the lines of some events of a history file, and its fault if it has one.
pub fn put_lines(alloc: Global, answer: &mut Vec<u8>, text: &str, numbers: [u64; 3]) -> Result<()> {
    let bytes = hex::decode(alloc, text)?;
    let [from, to, call] = numbers;
    let mut selection = Selection::all();
    selection.from = from;
    selection.to = to;
    selection.call = if call == 0 { None } else { Some(call) };
    writeln!(answer)?;
    if let Err(fault) = push_lines(alloc, answer, bytes.as_slice(), selection) {
        writeln!(answer, "{fault}")?;
    }
    Ok(())
}
