//! The events of a history file, in one pass. No message is copied: each stands in the file.

ghost use Rattle.std.specs.Prelude.{◌≡◌, ◌≤◌, length, IfOk};
ghost use Rattle.xdr_records.specs.Grammar.Grammar.{one_word, one_opaque, named};
ghost use Rattle.xdr_records.specs.Reading.{Answers, AnswersAll, all_of, item_here};
ghost use Rattle.xdr_records.specs.Items.{end_at};
ghost use Rattle.history_file.specs.Kinds.{kind_of};
ghost use Rattle.history_file.specs.Limits.{root_limit};
ghost use Rattle.history_file.specs.HistoryFile.{event_kind, event_count, message, event, events, recording, HistoryFile};
ghost use Rattle.history_file.specs.declared.fault.FileFault.{FileFault};
ghost use Rattle.history_file.specs.Event.{Recording};
ghost use Rattle.history_file.specs.FileFaults.{IsFileFault, IsFineOrNoMemory, IsErrorOf, IsThatOrNoMemory};
ghost use Rattle.history_file.specs.FileReading.{told, reading_of, file_of_version, file_of, IsAnswer};
ghost use Rattle.history_file.specs.Owning.{seen_event, all_seen, recording_value};

use crate::event::SeenEvent;
use crate::fault::FileFault;
use crate::items::{ItemFault, fault_at, opaque, word};
use crate::limits::{EVENT_LIMIT, HISTORY_LIMIT, ROOT_LIMIT};
use crate::starting::{object_count, profile, read_objects};
use crate::version::{Version, version_of};
use std::alloc::Global;
use tree_starts::{Profile, SeenStart};
use xdr_records::{RECORD_LIMIT, Reader};

/// The bytes of an event in memory, but for its message, which stands in the file.
const EVENT_SIZE: usize = 32;

/// The kind word of an event.
#[derive(Clone, Copy)]
pub enum EventKind {
    /// 0: a call was sent.
    Call,
    /// 1: a reply came.
    Reply,
    /// 2: a lane was closed.
    Close,
    /// 3: the server crashed.
    Crash,
}

/// What stands in a history file: its messages and its root handle are those of the file.
#[derive(Drop)]
pub struct SeenRecording<'a> {
    /// The root handle, of at most 64 bytes.
    pub root: &'a [u8],
    /// What the server held at first; object k is the k-th, counted from 1.
    pub start: SeenStart<'a>,
    /// How strictly the replies are judged.
    pub profile: Profile,
    /// The events, in order; event n is the n-th, counted from 1.
    pub events: Vec<SeenEvent<'a>>,
}

fn kind(reader: &mut Reader<'_>, number: u64) -> Result<EventKind, ItemFault>
    ensures { Answers told (λ k. k) reader.new result (reading_of (named (event_kind number)) reader.old) }
{
    let at = reader.offset();
    match word(reader)? {
        0 => Ok(EventKind::Call),
        1 => Ok(EventKind::Reply),
        2 => Ok(EventKind::Close),
        3 => Ok(EventKind::Crash),
        _ => Err(ItemFault::Fault {
            at,
            fault: FileFault::BadEvent(number),
        }),
    }
}

fn count(reader: &mut Reader<'_>) -> Result<u32, ItemFault>
    ensures { Answers told (λ n. n) reader.new result (reading_of (named event_count) reader.old) }
{
    let at = reader.offset();
    let count = word(reader)?;
    if count > EVENT_LIMIT {
        return Err(ItemFault::Fault {
            at,
            fault: FileFault::TooLarge,
        });
    }
    Ok(count)
}

#[tactic(auto, unfolding(crate::specs::HistoryFile::message))]
fn message<'a>(reader: &mut Reader<'a>) -> Result<&'a [u8], ItemFault>
    ensures { Answers told (λ m. m.now) reader.new result (reading_of message reader.old) }
{
    opaque(reader, RECORD_LIMIT as u32)
}

#[tactic(auto, unfolding(crate::specs::HistoryFile::event))]
fn one_event<'a>(reader: &mut Reader<'a>, number: u64) -> Result<SeenEvent<'a>, ItemFault>
    ensures { Answers told seen_event reader.new result (reading_of (event number) reader.old) }
{
    match kind(reader, number)? {
        EventKind::Call => {
            let lane = word(reader)?;
            let message = message(reader)?;
            Ok(SeenEvent::Call { lane, message })
        }
        EventKind::Reply => {
            let lane = word(reader)?;
            let message = message(reader)?;
            Ok(SeenEvent::Reply { lane, message })
        }
        EventKind::Close => {
            let lane = word(reader)?;
            Ok(SeenEvent::Close { lane })
        }
        EventKind::Crash => Ok(SeenEvent::Crash),
    }
}

/// So many events, numbered from 1. The count is only what the file says: room is made for no more events than
/// would cost as much as the bytes that are left.
fn many_events<'a>(
    alloc: Global,
    reader: &mut Reader<'a>,
    count: u32,
) -> Result<Vec<SeenEvent<'a>>, ItemFault>
    ensures { Answers told (λ v. all_seen v.items) reader.new result (reading_of (events count 1) reader.old) }
{
    let room = (reader.left() / EVENT_SIZE).min(count as usize);
    let mut seen = Vec::with_capacity(alloc, room)?;
    for index in 0..count {
        let event = one_event(reader, index as u64 + 1)?;
        seen.push(event)?;
    }
    Ok(seen)
}

fn root<'a>(reader: &mut Reader<'a>) -> Result<&'a [u8], ItemFault>
    ensures { Answers told (λ r. r.now) reader.new result (reading_of (one_opaque root_limit) reader.old) }
{
    opaque(reader, ROOT_LIMIT)
}

/// What stands in a file of version 1.
#[tactic(auto, unfolding(crate::specs::HistoryFile::recording))]
fn root_and_events<'a>(
    alloc: Global,
    reader: &mut Reader<'a>,
) -> Result<SeenRecording<'a>, ItemFault>
    ensures { Answers told recording_value reader.new result (reading_of (recording Version.First) reader.old) }
{
    let root = root(reader)?;
    let count = count(reader)?;
    let events = many_events(alloc, reader, count)?;
    Ok(SeenRecording {
        root,
        start: SeenStart::empty(alloc),
        profile: Profile::Plain,
        events,
    })
}

/// What stands in a file of version 2.
#[tactic(auto, unfolding(crate::specs::HistoryFile::recording))]
fn head_and_events<'a>(
    alloc: Global,
    reader: &mut Reader<'a>,
) -> Result<SeenRecording<'a>, ItemFault>
    ensures { Answers told recording_value reader.new result (reading_of (recording Version.Second) reader.old) }
{
    let root = root(reader)?;
    let profile = profile(reader)?;
    let number = object_count(reader)?;
    let start = read_objects(alloc, reader, number)?;
    let count = count(reader)?;
    let events = many_events(alloc, reader, count)?;
    Ok(SeenRecording {
        root,
        start,
        profile,
        events,
    })
}

fn recorded<'a>(
    alloc: Global,
    reader: &mut Reader<'a>,
    version: Version,
) -> Result<SeenRecording<'a>, ItemFault>
    ensures { Answers told recording_value reader.new result (reading_of (recording version) reader.old) }
{
    match version {
        Version::First => root_and_events(alloc, reader),
        Version::Second => head_and_events(alloc, reader),
    }
}

fn ended(reader: &Reader<'_>) -> Result<(), ItemFault>
    ensures { AnswersAll told (λ n. n) result (item_here kind_of reader.now.at (end_at reader.now)) }
{
    let at = reader.offset();
    reader.done().map_err(|fault| fault_at(at, fault))
}

fn body<'a>(
    alloc: Global,
    version: Version,
    bytes: &'a [u8],
) -> Result<SeenRecording<'a>, ItemFault>
    ensures { AnswersAll told recording_value result (all_of kind_of (recording version) bytes.now) }
{
    let mut reader = Reader::new(bytes);
    let seen = recorded(alloc, &mut reader, version)?;
    ended(&reader)?;
    Ok(seen)
}

/// The recording that a file of a version holds, step by step.
fn recording_in<'a>(
    alloc: Global,
    version: Version,
    bytes: &'a [u8],
) -> Result<SeenRecording<'a>, FileFault>
    requires { 8 ≤ length bytes.now }
    ensures { IsAnswer recording_value result (file_of_version version bytes.now) }
{
    if bytes.len() > HISTORY_LIMIT {
        return Err(FileFault::TooLarge);
    }
    match body(alloc, version, &bytes[8..]) {
        Ok(seen) => Ok(seen),
        Err(ItemFault::Fault { fault, .. }) => Err(fault),
        Err(ItemFault::NoMemory) => Err(FileFault::NoMemory),
    }
}

/// The recording that a file holds, step by step.
fn recording_of<'a>(alloc: Global, bytes: &'a [u8]) -> Result<SeenRecording<'a>, FileFault>
    ensures { IsAnswer recording_value result (file_of bytes.now) }
{
    match version_of(bytes) {
        Some(version) => recording_in(alloc, version, bytes),
        None => Err(FileFault::BadMagic),
    }
}

/// The recording that a file holds.
pub fn read_file<'a>(alloc: Global, bytes: &'a [u8]) -> Result<SeenRecording<'a>, FileFault>
    ensures found { IfOk result (λ seen. HistoryFile bytes.now (recording_value seen)) }
    // The file of a recording is read, memory aside.
    ensures only { (seen : Recording) → HistoryFile bytes.now seen → IsFineOrNoMemory result }
    ensures fault { IsErrorOf (IsFileFault bytes.now) result }
    // The first fault is named, memory aside.
    ensures named { (fault : FileFault) → IsFileFault bytes.now fault → IsThatOrNoMemory fault result }
{
    recording_of(alloc, bytes)
}
