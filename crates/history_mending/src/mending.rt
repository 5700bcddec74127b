//! What is made of a file that was left as it was written so far.

ghost use Rattle.std.specs.Prelude.{◌≡◌, ◌≤◌, ℕ, List, length, drop, Some, IfOk};
ghost use Rattle.tree_starts.specs.Head.{Head};
ghost use Rattle.history_file.specs.declared.fault.FileFault.{FileFault};
ghost use Rattle.history_file.specs.declared.version.Version.{Version};
ghost use Rattle.history_file.specs.FileFaults.{IsFineOrNoMemory, IsErrorOf, IsThatOrNoMemory};
ghost use Rattle.history_file.specs.FileReading.{version_of};
ghost use Rattle.history_mending.specs.Mending.{HasHead, IsHeadFault, IsMended};

use crate::end::End;
use crate::events::{WholeEvents, whole_events};
use crate::head::{SeenHead, read_head};
use history_file::{FileFault, HISTORY_LIMIT, SeenEvent, Version, version_of};
use std::alloc::Global;
use xdr_records::Reader;

/// The head and the whole events of a file that was left as it was written so far. They are lent from its bytes.
#[derive(Drop)]
pub struct Mended<'a> {
    /// Its version.
    pub version: Version,
    /// What the history begins with.
    pub head: SeenHead<'a>,
    /// Its events; event n is the n-th, counted from 1.
    pub events: Vec<SeenEvent<'a>>,
    /// How many bytes stand before the first event.
    pub head_end: usize,
    /// How many bytes stand before what is behind the last event.
    pub events_end: usize,
    /// Why the events end there.
    pub end: End,
}

/// What is behind the magic.
fn behind_magic(bytes: &[u8]) -> &[u8]
    requires { 8 ≤ length bytes.now }
    ensures { result.now ≡ drop 8 bytes.now }
{
    &bytes[8..]
}

/// The whole events of a file whose version is known.
fn mended_in<'a>(alloc: Global, version: Version, bytes: &'a [u8]) -> Result<Mended<'a>, FileFault>
    requires { version_of bytes.now ≡ Some version }
    ensures found { IfOk result (IsMended bytes.now) }
    ensures fault { IsErrorOf (IsHeadFault bytes.now) result }
{
    let mut reader = Reader::new(behind_magic(bytes));
    let head = read_head(alloc, &mut reader, version)?;
    let body = reader.rest();
    let beyond = bytes.len().saturating_sub(HISTORY_LIMIT);
    if body.len() < beyond {
        return Err(FileFault::TooLarge);
    }
    let read = whole_events(alloc, body, beyond)?;
    let WholeEvents { events, rest, end } = read;
    Ok(Mended {
        version,
        head,
        events,
        head_end: bytes.len() - body.len(),
        events_end: bytes.len() - rest.len(),
        end,
    })
}

/// The head of a file that was left as it was written so far, and the longest list of whole events behind it that a log takes: each may
/// follow those before it. The number of events that the head says isn't looked at. Only a head that can't be read is refused.
pub fn mend<'a>(alloc: Global, bytes: &'a [u8]) -> Result<Mended<'a>, FileFault>
    ensures found { IfOk result (IsMended bytes.now) }
    // What begins with a head is mended, memory aside.
    ensures only { (version : Version) (head : Head) (body : List ℕ) → HasHead bytes.now version head body → IsFineOrNoMemory result }
    ensures fault { IsErrorOf (IsHeadFault bytes.now) result }
    // The first fault of a head is named, memory aside.
    ensures named { (fault : FileFault) → IsHeadFault bytes.now fault → IsThatOrNoMemory fault result }
{
    match version_of(bytes) {
        Some(version) => mended_in(alloc, version, bytes),
        None => Err(FileFault::BadMagic),
    }
}
