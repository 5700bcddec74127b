//! What a recorder appends to a file while it records.

ghost use Rattle.std.specs.Prelude.{◌≡◌, ◌++◌, ◌<◌, ◌≤◌, [], length, take, drop, IfOk, OnOk};
ghost use Rattle.xdr_records.specs.Texts.{word_text, opaque_text};
ghost use Rattle.xdr_records.specs.Record.{record_limit};
ghost use Rattle.tree_starts.specs.Head.{plain_head};
ghost use Rattle.history_file.specs.HistoryFile.{HistoryFile};
ghost use Rattle.history_file.specs.Owning.{seen_event, all_happened};
ghost use Rattle.history_file.specs.Writing.{event_text, events_text, file_text, file_text_from, EventFits, IsLong, IsOverLimit, IsOverLimitFrom, IsLargeOnlyIf};

use history_file::{Event, SeenEvent, WriteFault, write_history, write_history_from};
use std::alloc::Global;
use tree_starts::{Profile, Start};
use xdr_records::{RECORD_LIMIT, put_opaque, put_u32};

/// How many events, and about how many bytes of them, are put into a text at a time.
const MOST_EVENTS: usize = 1_024;

const MOST_BYTES: usize = 262_144;

/// What stands ahead of the events in version 1: the file of a history without events.
pub fn part_head(alloc: Global, root: &[u8]) -> Result<Vec<u8>, WriteFault>
    ensures spelled { IfOk result (λ v. HistoryFile v.items (record { head = plain_head root.now; events = [] })) }
    // Each item in the one spelling that is written.
    ensures text { IfOk result (λ v. v.items ≡ file_text root.now []) }
    ensures large { IsLargeOnlyIf (IsOverLimit root.now []) result }
{
    let none: Vec<Event> = Vec::new(alloc);
    write_history(alloc, root, none.as_slice())
}

/// What stands ahead of the events in version 2: the file of a history without events.
pub fn part_head_from(
    alloc: Global,
    root: &[u8],
    profile: Profile,
    start: &Start,
) -> Result<Vec<u8>, WriteFault>
    ensures spelled { IfOk result (λ v. HistoryFile v.items (record { head = record { root = root.now; start = start.now; profile = profile }; events = [] })) }
    // Each item in the one spelling that is written.
    ensures text { IfOk result (λ v. v.items ≡ file_text_from (record { root = root.now; start = start.now; profile = profile }) []) }
    ensures large { IsLargeOnlyIf (IsOverLimitFrom (record { root = root.now; start = start.now; profile = profile }) []) result }
{
    let none: Vec<Event> = Vec::new(alloc);
    write_history_from(alloc, root, profile, start, none.as_slice())
}

/// Appends the kind word, the lane and the message of a call or a reply.
fn append_message(out: &mut Vec<u8>, kind: u32, lane: u32, message: &[u8]) -> Result<(), WriteFault>
    ensures ok { OnOk result (out.new.items ≡ out.old.items ++ (word_text kind ++ (word_text lane ++ opaque_text message.now))) }
    ensures fits { OnOk result (length message.now ≤ record_limit) }
    ensures large { IsLargeOnlyIf (record_limit < length message.now) result }
{
    if message.len() > RECORD_LIMIT {
        return Err(WriteFault::TooLarge);
    }
    put_u32(out, kind)?;
    put_u32(out, lane)?;
    put_opaque(out, message)?;
    Ok(())
}

/// Appends an event, as it stands in a history file.
pub fn append_event(out: &mut Vec<u8>, event: &SeenEvent<'_>) -> Result<(), WriteFault>
    // In the one spelling that is written.
    ensures ok { OnOk result (out.new.items ≡ out.old.items ++ event_text (seen_event event.now)) }
    ensures fits { OnOk result (EventFits (seen_event event.now)) }
    ensures large { IsLargeOnlyIf (IsLong (seen_event event.now)) result }
{
    match event {
        SeenEvent::Call { lane, message } => append_message(out, 0, *lane, *message),
        SeenEvent::Reply { lane, message } => append_message(out, 1, *lane, *message),
        SeenEvent::Close { lane } => {
            put_u32(out, 2)?;
            put_u32(out, *lane)?;
            Ok(())
        }
        SeenEvent::Crash => {
            put_u32(out, 3)?;
            Ok(())
        }
    }
}

/// How many of these events are put at a time: one at least, where there is one.
fn piece_of(events: &[Event]) -> usize
    ensures bound { result ≤ length events.now }
    ensures some { result ≡ 0 → length events.now ≡ 0 }
{
    let mut count = 0usize;
    let mut bytes = 0usize;
    for event in events {
        if count >= MOST_EVENTS || bytes >= MOST_BYTES {
            break;
        }
        let size = match event {
            Event::Call { message, .. } | Event::Reply { message, .. } => message.as_slice().len(),
            Event::Close { .. } | Event::Crash => 0,
        };
        count = count.saturating_add(1);
        bytes = bytes.saturating_add(size);
    }
    count.max(1).min(events.len())
}

/// Puts events into a text, as they stand in a file, in place of what it held.
fn put_events(text: &mut Vec<u8>, events: &[Event]) -> Result<(), WriteFault>
    ensures { OnOk result (text.new.items ≡ events_text (all_happened events.now)) }
{
    text.clear();
    for event in events {
        append_event(text, &event.as_seen())?;
    }
    Ok(())
}

/// The events behind so many of them.
fn behind(events: &[Event], from: usize) -> &[Event]
    ensures { result.now ≡ drop from events.now }
{
    if from < events.len() {
        &events[from..]
    } else {
        &[]
    }
}

/// Puts the next of some events behind so many of them into a text, as they stand in a file, in place of what it held. How many they are:
/// at most 1,024, and no more once there are 262,144 bytes.
pub fn put_next(text: &mut Vec<u8>, events: &[Event], from: usize) -> Result<usize, WriteFault>
    ensures put { IfOk result (λ count. text.new.items ≡ events_text (take count (drop from (all_happened events.now)))) }
    // None only where there is none.
    ensures some { IfOk result (λ count. count ≡ 0 → length events.now ≤ from) }
{
    let rest = behind(events, from);
    let count = piece_of(rest);
    let (piece, _) = rest.split_at(count);
    put_events(text, piece)?;
    Ok(count)
}
