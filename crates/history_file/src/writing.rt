//! A history file, written.

ghost use Rattle.std.specs.Prelude.{◌≡◌, ◌++◌, ◌<◌, ◌≤◌, ◌⊎◌, length, OnOk, IfOk, Err};
ghost use Rattle.std.specs.List.{AllByRecursion};
ghost use Rattle.xdr_records.specs.Texts.{word_text, opaque_text};
ghost use Rattle.xdr_records.specs.Record.{record_limit};
ghost use Rattle.tree_starts.specs.Head.{plain_head};
ghost use Rattle.tree_starts.specs.Start.{IsStart, start_limit};
ghost use Rattle.history_file.specs.Limits.{history_limit, event_limit, root_limit};
ghost use Rattle.history_file.specs.HistoryFile.{HistoryFile};
ghost use Rattle.history_file.specs.Owning.{happened, all_happened};
ghost use Rattle.history_file.specs.Writing.{event_text, counted_text, file_text, node_text, object_text, objects_text, profile_number, head_text, file_text_from, EventFits, IsLong, SomeLong, IsOverLimit, IsOverLimitFrom, IsLargeOnlyIf};
ghost use Rattle.history_file.specs.declared.writing.WriteFault.{WriteFault};

use crate::event::{Event, Message};
use crate::limits::{EVENT_LIMIT, HISTORY_LIMIT, ROOT_LIMIT};
use std::alloc::{AllocError, AllocFailed, Global};
use std::fmt;
use thiserror::Error;
use tree_starts::{Profile, Start, StartNode, StartObject};
use xdr_records::{RECORD_LIMIT, put_opaque, put_u32, put_u64};

/// Why a history can't be written.
#[derive(Clone, Copy, Debug, PartialEq, Eq, Error)]
pub enum WriteFault {
    /// A limit is passed: by the file, its number of events, a message or the root handle.
    TooLarge,
    /// Memory ran out.
    NoMemory,
}

impl fmt::Display for WriteFault {
    ghost use Rattle.std.specs.Prelude.{Some};
    ghost use Rattle.history_file.specs.FaultText.{write_fault_words};

    ghost output = { λ fault. Some (write_fault_words fault) };

    fn fmt<W: fmt::Write>(&self, f: &mut fmt::Formatter<W>) -> fmt::Result {
        match self {
            WriteFault::TooLarge => f.write_str("TooLarge"),
            WriteFault::NoMemory => f.write_str("out of memory"),
        }
    }
}

impl From<AllocError> for WriteFault {
    ghost use Rattle.std.specs.Prelude.{◌≡◌};
    ghost use Rattle.history_file.specs.declared.writing.WriteFault.TheVariants.{NoMemory};

    ghost from_gives = { λ _ e. e ≡ NoMemory };

    fn from(_error: AllocError) -> WriteFault {
        WriteFault::NoMemory
    }
}

impl<T: Drop> From<AllocFailed<T>> for WriteFault {
    ghost use Rattle.std.specs.Prelude.{◌≡◌};
    ghost use Rattle.history_file.specs.declared.writing.WriteFault.TheVariants.{NoMemory};

    ghost from_gives = { λ _ e. e ≡ NoMemory };

    fn from(_error: AllocFailed<T>) -> WriteFault {
        WriteFault::NoMemory
    }
}

/// Appends the kind word, the lane and the message of a call or a reply.
fn put_message(out: &mut Vec<u8>, kind: u32, lane: u32, message: &Message) -> Result<(), WriteFault>
    ensures ok { OnOk result (out.new.items ≡ out.old.items ++ (word_text kind ++ (word_text lane ++ opaque_text message.now))) }
    ensures fits { OnOk result (length message.now ≤ record_limit) }
    ensures large { IsLargeOnlyIf (record_limit < length message.now) result }
{
    let bytes = message.as_slice();
    if bytes.len() > RECORD_LIMIT {
        return Err(WriteFault::TooLarge);
    }
    put_u32(out, kind)?;
    put_u32(out, lane)?;
    put_opaque(out, bytes)?;
    Ok(())
}

/// Appends an event.
fn put_event(out: &mut Vec<u8>, event: &Event) -> Result<(), WriteFault>
    ensures ok { OnOk result (out.new.items ≡ out.old.items ++ event_text (happened event.now)) }
    ensures fits { OnOk result (EventFits (happened event.now)) }
    ensures large { IsLargeOnlyIf (IsLong (happened event.now)) result }
{
    match event {
        Event::Call { lane, message } => put_message(out, 0, *lane, message),
        Event::Reply { lane, message } => put_message(out, 1, *lane, message),
        Event::Close { lane } => {
            put_u32(out, 2)?;
            put_u32(out, *lane)?;
            Ok(())
        }
        Event::Crash => {
            put_u32(out, 3)?;
            Ok(())
        }
    }
}

/// Appends the events, with their number.
fn put_events(out: &mut Vec<u8>, events: &[Event]) -> Result<(), WriteFault>
    requires { length events.now ≤ event_limit }
    ensures ok { OnOk result (out.new.items ≡ out.old.items ++ counted_text (all_happened events.now)) }
    ensures fits { OnOk result (AllByRecursion EventFits (all_happened events.now)) }
    ensures small { OnOk result (length out.new.items ≤ history_limit) }
    ensures large { IsLargeOnlyIf (SomeLong (all_happened events.now) ⊎ (history_limit < length (out.old.items ++ counted_text (all_happened events.now)))) result }
{
    put_u32(out, events.len() as u32)?;
    if out.len() > HISTORY_LIMIT {
        return Err(WriteFault::TooLarge);
    }
    for event in events {
        put_event(out, event)?;
        if out.len() > HISTORY_LIMIT {
            return Err(WriteFault::TooLarge);
        }
    }
    Ok(())
}

/// Appends the kind word of what a starting object is, and its bytes.
fn put_node(out: &mut Vec<u8>, node: &StartNode) -> Result<(), WriteFault>
    ensures ok { OnOk result (out.new.items ≡ out.old.items ++ node_text node.now) }
    ensures large { IsLargeOnlyIf ⊥ result }
{
    match node {
        StartNode::File(bytes) => {
            put_u32(out, 1)?;
            put_opaque(out, bytes.as_slice())?;
        }
        StartNode::Directory => put_u32(out, 2)?,
        StartNode::Link(text) => {
            put_u32(out, 5)?;
            put_opaque(out, text.as_slice())?;
        }
    }
    Ok(())
}

/// Appends a starting object.
fn put_object(out: &mut Vec<u8>, object: &StartObject) -> Result<(), WriteFault>
    ensures ok { OnOk result (out.new.items ≡ out.old.items ++ object_text object.now) }
    ensures large { IsLargeOnlyIf ⊥ result }
{
    put_u64(out, object.parent)?;
    put_opaque(out, object.name.as_slice())?;
    put_node(out, &object.node)
}

/// Appends the starting objects, with their number.
fn put_objects(out: &mut Vec<u8>, objects: &[StartObject]) -> Result<(), WriteFault>
    requires { length objects.now ≤ start_limit }
    ensures ok { OnOk result (out.new.items ≡ out.old.items ++ (word_text (length objects.now) ++ objects_text objects.now)) }
    ensures large { IsLargeOnlyIf (history_limit < length (out.old.items ++ (word_text (length objects.now) ++ objects_text objects.now))) result }
{
    put_u32(out, objects.len() as u32)?;
    for object in objects {
        put_object(out, object)?;
        if out.len() > HISTORY_LIMIT {
            return Err(WriteFault::TooLarge);
        }
    }
    Ok(())
}

fn profile_number(profile: Profile) -> u32
    ensures { result ≡ profile_number profile }
{
    match profile {
        Profile::Plain => 0,
        Profile::Strict => 1,
    }
}

/// The file of these events, whether or not they are those of a history, in version 1.
pub fn write_history(alloc: Global, root: &[u8], events: &[Event]) -> Result<Vec<u8>, WriteFault>
    ensures spelled { IfOk result (λ v. HistoryFile v.items (record { head = plain_head root.now; events = all_happened events.now })) }
    // Each item in the one spelling that is written.
    ensures text { IfOk result (λ v. v.items ≡ file_text root.now (all_happened events.now)) }
    ensures large { IsLargeOnlyIf (IsOverLimit root.now (all_happened events.now)) result }
{
    if root.len() > ROOT_LIMIT as usize || events.len() > EVENT_LIMIT as usize {
        return Err(WriteFault::TooLarge);
    }
    let mut out = Vec::from_slice(alloc, b"NFSHIST1".as_slice())?;
    put_opaque(&mut out, root)?;
    put_events(&mut out, events)?;
    Ok(out)
}

/// The file of a start and these events, whether or not they are those of a history, in version 2.
pub fn write_history_from(
    alloc: Global,
    root: &[u8],
    profile: Profile,
    start: &Start,
    events: &[Event],
) -> Result<Vec<u8>, WriteFault>
    ensures spelled { IfOk result (λ v. HistoryFile v.items (record { head = record { root = root.now; start = start.now; profile = profile }; events = all_happened events.now })) }
    // Each item in the one spelling that is written.
    ensures text { IfOk result (λ v. v.items ≡ file_text_from (record { root = root.now; start = start.now; profile = profile }) (all_happened events.now)) }
    ensures large { IsLargeOnlyIf (IsOverLimitFrom (record { root = root.now; start = start.now; profile = profile }) (all_happened events.now)) result }
{
    if root.len() > ROOT_LIMIT as usize {
        return Err(WriteFault::TooLarge);
    }
    if events.len() > EVENT_LIMIT as usize {
        return Err(WriteFault::TooLarge);
    }
    let mut whole = head(alloc, root, profile, start)?;
    put_events(&mut whole, events)?;
    Ok(whole)
}

/// What stands before the events in a file of version 2.
fn head(alloc: Global, root: &[u8], profile: Profile, start: &Start) -> Result<Vec<u8>, WriteFault>
    requires { length root.now ≤ root_limit }
    ensures text { IfOk result (λ v. v.items ≡ head_text (record { root = root.now; start = start.now; profile = profile })) }
    ensures valid { OnOk result (IsStart start.now) }
    ensures large { IsLargeOnlyIf (history_limit < length (head_text (record { root = root.now; start = start.now; profile = profile }))) result }
{
    let mut front = Vec::from_slice(alloc, b"NFSHIST2".as_slice())?;
    put_opaque(&mut front, root)?;
    put_u32(&mut front, profile_number(profile))?;
    put_objects(&mut front, start.objects())?;
    Ok(front)
}
