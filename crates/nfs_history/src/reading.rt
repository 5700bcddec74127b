//! A history file, read and checked.

ghost use Rattle.std.specs.Prelude.{IfOk};
ghost use Rattle.nfs_history.specs.declared.fault.HistoryFault.{HistoryFault};
ghost use Rattle.nfs_history.specs.declared.history.History.{History};
ghost use Rattle.nfs_history.specs.declared.knowing.KnownCalls.{KnownCalls};
ghost use Rattle.nfs_history.specs.History.{IsCallsFile, IsHistoryFile};
ghost use Rattle.nfs_history.specs.FirstFault.{FirstFault};
ghost use Rattle.nfs_history.specs.Answers.{IsFineOrNoMemory, IsErrorOf, IsThatOrNoMemory};

use crate::fault::HistoryFault;
use crate::head::LentHead;
use crate::history::History;
use crate::knowing::KnownCalls;
use history_file::tree_starts::Start;
use history_file::{SeenRecording, copy_events, read_file};
use nfs3_types::FileHandle;
use std::alloc::Global;

/// What is known of the calls of the history that a file holds. The first fault is named: those of the file, then those
/// of its events, then those of its calls. No message is copied: the calls point into the bytes.
pub fn read_calls(alloc: Global, bytes: &[u8]) -> Result<KnownCalls<'_>, HistoryFault>
    // The bytes are the file of a history whose calls these are.
    ensures found { IfOk result (IsCallsFile bytes.now) }
    // The calls of the file of a history are found, memory aside.
    ensures only { (known : KnownCalls) → IsCallsFile bytes.now known → IsFineOrNoMemory result }
    ensures fault { IsErrorOf (FirstFault bytes.now) result }
    // The first fault is named, memory aside.
    ensures named { (fault : HistoryFault) → FirstFault bytes.now fault → IsThatOrNoMemory fault result }
{
    let seen = read_file(alloc, bytes)?;
    let root = FileHandle::from_slice(alloc, seen.root)?;
    let SeenRecording {
        root: _,
        start,
        profile,
        events,
    } = seen;
    KnownCalls::of_events(alloc, LentHead::new(root, start, profile), events)
}

/// The history that a file holds. The first fault is named: those of the file, then those of its events, then
/// those of its calls. The bytes of messages are copied once, and what the calls and results own.
pub fn read_history(alloc: Global, bytes: &[u8]) -> Result<History, HistoryFault>
    ensures found { IfOk result (IsHistoryFile bytes.now) }
    // The file of a history is read, memory aside.
    ensures only { (history : History) → IsHistoryFile bytes.now history → IsFineOrNoMemory result }
    ensures fault { IsErrorOf (FirstFault bytes.now) result }
    // The first fault is named, memory aside.
    ensures named { (fault : HistoryFault) → FirstFault bytes.now fault → IsThatOrNoMemory fault result }
{
    let recording = read_file(alloc, bytes)?;
    let root = FileHandle::from_slice(alloc, recording.root)?;
    let events = copy_events(alloc, recording.events.as_slice())?;
    let start = Start::of_seen(alloc, &recording.start)?;
    History::build_from(alloc, root, recording.profile, start, events)
}
