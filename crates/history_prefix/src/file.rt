//! The file of a prefix.

ghost use Rattle.std.specs.Prelude.{◌≡◌, IfOk, IsErrAnd, false};
ghost use Rattle.tree_starts.specs.Head.{plain_head};
ghost use Rattle.history_file.specs.HistoryFile.{HistoryFile};
ghost use Rattle.nfs_history.specs.Answers.{IsErrorOf};
ghost use Rattle.nfs_history.specs.FirstFault.{FirstFault, FirstFaultOf};
ghost use Rattle.nfs_history.specs.declared.history.History.{History};
ghost use Rattle.nfs_history.specs.History.{IsHistory, IsHistoryFile, recording_of};
ghost use Rattle.history_prefix.specs.Front.{IsFrontOf, IsOfFirst, is_of_events};
ghost use Rattle.history_prefix.specs.Keeping.{prefix_of};
ghost use Rattle.history_prefix.specs.Prefix.{IsPrefixOf, IsRefusalOf, IsWhole, text_as};

use crate::fault::PrefixFault;
use crate::keeping::kept_history;
use crate::marks::marks_within;
use crate::refused::front_of;
use history_file::{SeenEvent, Version, copy_events, read_file, version_of};
use nfs_history::{
    History, HistoryFault, Start, WriteFault, read_history, write_history, write_history_from,
};
use nfs3_types::FileHandle;
use std::alloc::Global;

/// The file of a prefix.
#[derive(Drop)]
pub struct PrefixFile {
    /// Its bytes.
    pub bytes: Vec<u8>,
    /// How many events it has.
    pub events: u64,
    /// Why the history is refused from which its first events were taken; none where it isn't.
    pub refusal: Option<HistoryFault>,
}

/// The history of the first `last` events of a history, and of the later replies to the calls that began among them. The first fault
/// is named, where these are the events of none.
pub fn prefix_of(alloc: Global, history: &History, last: u64) -> Result<History, HistoryFault>
    ensures found { IfOk result (IsHistory (prefix_of history.now last)) }
    ensures fault { IsErrorOf (FirstFaultOf (prefix_of history.now last).events) result }
    // No room is set aside.
    ensures bare { IfOk result (λ part. part.spare ≡ 0) }
{
    let marks = marks_within(alloc, history, last)?;
    kept_history(alloc, history, marks.as_slice())
}

/// The file of a history in a version. Version 1 has no word for what a server held at first, nor for a profile.
pub fn file_as(alloc: Global, version: Version, history: &History) -> Result<Vec<u8>, WriteFault>
    requires { version ≡ Version.First → history.now.known.head ≡ plain_head history.now.known.head.root }
    ensures spelled { IfOk result (λ text. HistoryFile text.items (recording_of history.now)) }
    // Each item in the one spelling that is written.
    ensures text { IfOk result (λ text. text.items ≡ text_as version (recording_of history.now)) }
{
    let root = history.root().as_slice();
    let events = history.events();
    match version {
        Version::First => write_history(alloc, root, events),
        Version::Second => {
            write_history_from(alloc, root, history.profile(), history.start(), events)
        }
    }
}

/// The file of a prefix of the history of a file's first events, and why the events after these are refused, if they are.
fn prefix_read(
    alloc: Global,
    bytes: &[u8],
    front: &History,
    refusal: Option<HistoryFault>,
    last: u64,
) -> Result<PrefixFile, PrefixFault>
    requires { IsFrontOf bytes.now refusal front.now }
    ensures prefix { IfOk result (IsPrefixOf bytes.now last) }
    ensures refusal { IfOk result (λ prefix. prefix.refusal ≡ refusal) }
{
    let Some(version) = version_of(bytes) else {
        unreachable!();
    };
    match prefix_of(alloc, front, last) {
        Ok(part) => Ok(PrefixFile {
            bytes: file_as(alloc, version, &part)?,
            events: part.events().len() as u64,
            refusal,
        }),
        Err(HistoryFault::NoMemory) => Err(PrefixFault::NoMemory),
        Err(fault) => Err(PrefixFault::NoHistory(fault)),
    }
}

/// Whether a fault is one of events or calls that can be read.
fn is_of_events(fault: HistoryFault) -> bool
    ensures { result ≡ is_of_events fault }
{
    match fault {
        HistoryFault::LaneClosed(_)
        | HistoryFault::BadRpc(_)
        | HistoryFault::XidInUse(_)
        | HistoryFault::NoSuchCall(_)
        | HistoryFault::Sealed(_)
        | HistoryFault::BadArgs(_)
        | HistoryFault::BadResult(_)
        | HistoryFault::Outside { .. } => true,
        HistoryFault::BadMagic
        | HistoryFault::TooLarge
        | HistoryFault::Truncated
        | HistoryFault::BadEvent(_)
        | HistoryFault::Trailing
        | HistoryFault::BadStart(_)
        | HistoryFault::BadProfile
        | HistoryFault::NoMemory => false,
    }
}

/// The events before the one at fault; all, where a call is at fault.
fn before<'s, 'a>(events: &'s [SeenEvent<'a>], fault: HistoryFault) -> &'s [SeenEvent<'a>] {
    match fault {
        HistoryFault::LaneClosed(event)
        | HistoryFault::BadRpc(event)
        | HistoryFault::XidInUse(event)
        | HistoryFault::NoSuchCall(event) => events
            .get(..(event as usize).saturating_sub(1))
            .unwrap_or(events),
        _ => events,
    }
}

/// The history of a file's first events, of which the first fault is this: as many as [`front_of`] finds.
fn read_front(alloc: Global, bytes: &[u8], fault: HistoryFault) -> Result<History, HistoryFault>
    ensures { IfOk result (IsOfFirst bytes.now) }
{
    let seen = read_file(alloc, bytes)?;
    let count = front_of(alloc, before(seen.events.as_slice(), fault))?;
    let root = FileHandle::from_slice(alloc, seen.root)?;
    let mut events = copy_events(alloc, seen.events.as_slice())?;
    events.truncate(count as usize);
    let start = Start::of_seen(alloc, &seen.start)?;
    History::build_from(alloc, root, seen.profile, start, events)
}

/// The same for a prefix of it.
fn prefix_of_front(
    alloc: Global,
    bytes: &[u8],
    fault: HistoryFault,
    last: u64,
) -> Result<PrefixFile, PrefixFault>
    requires { FirstFault bytes.now fault }
    ensures prefix { IfOk result (IsPrefixOf bytes.now last) }
{
    match read_front(alloc, bytes, fault) {
        Ok(front) => prefix_read(alloc, bytes, &front, Some(fault), last),
        Err(HistoryFault::NoMemory) => Err(PrefixFault::NoMemory),
        Err(fault) => Err(PrefixFault::NoHistory(fault)),
    }
}

/// The file of a prefix of the history that a file holds: of its first `last` events, and of the later replies to the calls that began
/// among them. It is of the same version, and begins with the same. Where the history has no more events the prefix is the whole.
///
/// Of a history that is refused for an event or a call it takes the events before that event, or before the one that sent the call, and no
/// reply that came later. Where a call is open there that is refused while it is open, it ends before that one was sent ([`Front`](crate::Front)).
pub fn prefix_file(alloc: Global, bytes: &[u8], last: u64) -> Result<PrefixFile, PrefixFault>
    ensures prefix { IfOk result (IsPrefixOf bytes.now last) }
    // A history that isn't refused is taken whole.
    ensures whole { (history : History) → IsHistoryFile bytes.now history → IfOk result IsWhole }
    // Bytes that can't be read are refused for their first fault, memory aside.
    ensures refused { (fault : HistoryFault) → FirstFault bytes.now fault → is_of_events fault ≡ false → IsErrAnd result (IsRefusalOf fault) }
{
    match read_history(alloc, bytes) {
        Ok(history) => prefix_read(alloc, bytes, &history, None, last),
        Err(fault) if is_of_events(fault) => prefix_of_front(alloc, bytes, fault, last),
        Err(fault) => Err(PrefixFault::from(fault)),
    }
}
