//! A recording's history file, written some events at a time: so no second copy of it stands in memory.

ghost use Rattle.std.specs.Prelude.{◌≡◌, ◌+◌, ◌<◌, ◌≤◌, ◌^◌, ◌++◌, ℕ, List, IfOk, OnOk, length, drop};
ghost use Rattle.std.specs.Io.KnownBytes.{Appends};
ghost use Rattle.xdr_records.specs.Texts.{opaque_text, word_text};
ghost use Rattle.history_file.specs.HistoryFile.{magic};
ghost use Rattle.history_file.specs.declared.version.Version.TheVariants.{First};
ghost use Rattle.history_file.specs.Limits.{history_limit};
ghost use Rattle.history_file.specs.Owning.{all_happened};
ghost use Rattle.history_file.specs.Writing.{events_text, file_text, file_text_from};

use history_file::{
    EVENT_LIMIT, Event, HISTORY_LIMIT, WriteFault, write_history, write_history_from,
};
use nfs3_types::FileHandle;
use program_streams::write_pieces;
use std::alloc::{AllocError, AllocFailed, Global};
use std::io::{self, Write};
use tree_starts::{Profile, Start};
use xdr_records::{put_opaque, put_u32};

/// How many events are written at a time.
const PIECE: usize = 16;

/// The bytes ahead of the events of a file whose root handle has none.
const HEAD_SIZE: usize = 16;

/// Why a recording isn't saved.
#[derive(Clone, Copy)]
pub(crate) enum SaveFault {
    /// A limit of a history's file is passed.
    CannotWrite,
    /// A write failed.
    Failed(io::Error),
    NoMemory,
}

impl From<AllocError> for SaveFault {
    fn from(_error: AllocError) -> SaveFault {
        SaveFault::NoMemory
    }
}

impl<T: Drop> From<AllocFailed<T>> for SaveFault {
    fn from(_error: AllocFailed<T>) -> SaveFault {
        SaveFault::NoMemory
    }
}

impl From<io::Error> for SaveFault {
    fn from(error: io::Error) -> SaveFault {
        SaveFault::Failed(error)
    }
}

impl From<WriteFault> for SaveFault {
    fn from(fault: WriteFault) -> SaveFault {
        match fault {
            WriteFault::TooLarge => SaveFault::CannotWrite,
            WriteFault::NoMemory => SaveFault::NoMemory,
        }
    }
}

/// What a server held at first, and how its replies are judged: a history of version 2 begins so.
#[derive(Drop)]
pub(crate) struct Beginning {
    pub(crate) profile: Profile,
    pub(crate) start: Start,
}

/// The history file of these events of a log, of a server that held this at first.
pub(crate) fn file_from(
    alloc: Global,
    beginning: &Beginning,
    root: &[u8],
    events: &[Event],
) -> Result<Vec<u8>, SaveFault>
    ensures { IfOk result (λ file. file.items ≡ file_text_from
        (record { root = root.now; start = beginning.now.start; profile = beginning.now.profile }) (all_happened events.now)) }
{
    let file = write_history_from(alloc, root, beginning.profile, &beginning.start, events)?;
    Ok(file)
}

/// The bytes of a file ahead of its events.
fn file_head(alloc: Global, root: &[u8], events: u32) -> Result<Vec<u8>, SaveFault>
    requires { length root.now < 2 ^ 32 }
    ensures { IfOk result (λ head. head.items ≡ magic First ++ (opaque_text root.now ++ word_text events)) }
{
    let mut head = Vec::from_slice(alloc, b"NFSHIST1".as_slice())?;
    put_opaque(&mut head, root)?;
    put_u32(&mut head, events)?;
    Ok(head)
}

/// The events of a file whose root handle has no bytes.
fn behind_head(text: &[u8]) -> &[u8]
    requires { 16 ≤ length text.now }
    ensures { result.now ≡ drop 16 text.now }
{
    &text[HEAD_SIZE..]
}

/// Writes events as they stand in a file, and says how many bytes these are.
fn write_piece<W: Write>(
    alloc: Global,
    events: &[Event],
    writer: &mut W,
) -> Result<usize, SaveFault>
    ensures written { OnOk result (Appends (W.contents writer.old) (W.contents writer.new) (events_text (all_happened events.now))) }
    ensures count { IfOk result (λ count. count ≡ length (events_text (all_happened events.now))) }
{
    let text = write_history(alloc, b"".as_slice(), events)?;
    let bytes = behind_head(text.as_slice());
    write_pieces(writer, bytes)?;
    Ok(bytes.len())
}

/// Writes events behind so many bytes of their file, as far as the file's limit allows.
fn write_events<W: Write>(
    alloc: Global,
    events: &[Event],
    ahead: usize,
    writer: &mut W,
) -> Result<(), SaveFault>
    requires { ahead ≤ history_limit }
    ensures written { OnOk result (Appends (W.contents writer.old) (W.contents writer.new) (events_text (all_happened events.now))) }
    ensures within { OnOk result (ahead + length (events_text (all_happened events.now)) ≤ history_limit) }
{
    let mut size = ahead;
    let mut rest = events;
    while !rest.is_empty() {
        let (piece, behind) = rest.split_at(rest.len().min(PIECE));
        let count = write_piece(alloc, piece, writer)?;
        if count > HISTORY_LIMIT - size {
            return Err(SaveFault::CannotWrite);
        }
        size += count;
        rest = behind;
    }
    Ok(())
}

/// A history's file, and how many events of a log it has.
#[derive(Drop)]
pub(crate) struct LogFile {
    pub(crate) bytes: Vec<u8>,
    pub(crate) events: usize,
}

/// The bytes of an event in a file.
fn size_of(event: &Event) -> usize {
    match event {
        Event::Call { message, .. } => size_with(message.as_slice().len()),
        Event::Reply { message, .. } => size_with(message.as_slice().len()),
        Event::Close { .. } => 8,
        Event::Crash => 4,
    }
}

/// The bytes of an event with a message of so many.
fn size_with(message: usize) -> usize {
    (message.saturating_add(3) / 4 * 4).saturating_add(12)
}

/// How many events from the front have room in so many bytes.
fn fitting(events: &[Event], room: usize) -> usize {
    let mut left = room;
    for (index, event) in events.iter().enumerate() {
        let size = size_of(event);
        if size > left {
            return index;
        }
        left = left.saturating_sub(size);
    }
    events.len()
}

/// The file of as many events as there is room for behind what a server held at first.
fn file_within(
    alloc: Global,
    beginning: &Beginning,
    root: &[u8],
    events: &[Event],
) -> Result<LogFile, SaveFault> {
    let head = file_from(alloc, beginning, root, &[])?;
    let count = fitting(events, HISTORY_LIMIT.saturating_sub(head.len()));
    drop(head);
    let front = events.get(..count).unwrap_or(events);
    Ok(LogFile {
        bytes: file_from(alloc, beginning, root, front)?,
        events: front.len(),
    })
}

/// The history file of a server that held this at first: of all events, or of as many as there is room for.
fn file_behind(
    alloc: Global,
    beginning: &Beginning,
    root: &[u8],
    events: &[Event],
) -> Result<LogFile, SaveFault> {
    match file_from(alloc, beginning, root, events) {
        Ok(bytes) => Ok(LogFile {
            bytes,
            events: events.len(),
        }),
        Err(SaveFault::CannotWrite) => file_within(alloc, beginning, root, events),
        Err(fault) => Err(fault),
    }
}

/// Writes the history file of these events, of a server that held this at first, or nothing, and says how many it has.
pub(crate) fn write_events_of<W: Write>(
    alloc: Global,
    beginning: &Option<Beginning>,
    root: &FileHandle,
    events: &[Event],
    writer: &mut W,
) -> Result<usize, SaveFault> {
    match beginning {
        None => {
            write_file(alloc, root, events, writer)?;
            Ok(events.len())
        }
        Some(beginning) => {
            let file = file_behind(alloc, beginning, root.as_slice(), events)?;
            write_pieces(writer, file.bytes.as_slice())?;
            Ok(file.events)
        }
    }
}

/// The history file of these events, of a server that held this at first, or nothing.
pub(crate) fn events_file(
    alloc: Global,
    beginning: &Option<Beginning>,
    root: &FileHandle,
    events: &[Event],
) -> Result<LogFile, SaveFault> {
    match beginning {
        None => Ok(LogFile {
            bytes: write_history(alloc, root.as_slice(), events)?,
            events: events.len(),
        }),
        Some(beginning) => file_behind(alloc, beginning, root.as_slice(), events),
    }
}

/// Writes the history file of these events.
pub(crate) fn write_file<W: Write>(
    alloc: Global,
    root: &FileHandle,
    events: &[Event],
    writer: &mut W,
) -> Result<(), SaveFault>
    ensures written { OnOk result (Appends (W.contents writer.old) (W.contents writer.new) (file_text root.now (all_happened events.now))) }
    ensures within { OnOk result (length (file_text root.now (all_happened events.now)) ≤ history_limit) }
{
    if events.len() > EVENT_LIMIT as usize {
        return Err(SaveFault::CannotWrite);
    }
    let head = file_head(alloc, root.as_slice(), events.len() as u32)?;
    write_pieces(writer, head.as_slice())?;
    write_events(alloc, events, head.len(), writer)?;
    Ok(())
}
