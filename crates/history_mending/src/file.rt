//! The history of what was mended.

ghost use Rattle.std.specs.Prelude.{◌≡◌, ◌≤◌, ◌-◌, ◌++◌, length, take, drop, Some, IfOk};
ghost use Rattle.xdr_records.specs.Texts.{word_text};
ghost use Rattle.history_file.specs.FileReading.{version_of};
ghost use Rattle.history_file.specs.HistoryFile.{HistoryFile};
ghost use Rattle.history_mending.specs.Mending.{IsMended, recording_of};

use crate::mending::Mended;
use std::alloc::{AllocError, Global};
use xdr_records::put_u32;

/// The bytes of a word.
const WORD: usize = 4;

/// Bytes with a word put in ahead of a place, for the one that stands there, up to an end.
fn with_number(
    alloc: Global,
    bytes: &[u8],
    at: usize,
    number: u32,
    end: usize,
) -> Result<Vec<u8>, AllocError>
    requires early { 4 ≤ at }
    requires rising { at ≤ end }
    requires within { end ≤ length bytes.now }
    ensures { IfOk result (λ file. file.items ≡ take (at - 4) bytes.now ++ (word_text number ++ take (end - at) (drop at bytes.now))) }
{
    let mut file = Vec::with_capacity(alloc, end)?;
    file.extend_from_slice(&bytes[..at - WORD])?;
    put_u32(&mut file, number)?;
    file.extend_from_slice(&bytes[at..end])?;
    Ok(file)
}

/// The file of the history that was made of these bytes: its head, the number of its events, and these, as they stand in the bytes.
pub fn mended_file(alloc: Global, bytes: &[u8], mended: &Mended<'_>) -> Result<Vec<u8>, AllocError>
    requires { IsMended bytes.now mended.now }
    ensures spelled { IfOk result (λ file. HistoryFile file.items (recording_of mended.now)) }
    // In the same version.
    ensures version { IfOk result (λ file. version_of file.items ≡ Some mended.now.version) }
{
    let count = mended.events.len() as u32;
    with_number(alloc, bytes, mended.head_end, count, mended.events_end)
}
