//! Where a reply and the tree differ.

use crate::lists::{push_names, push_names_plus};
use crate::objects::push_count;
use crate::scene::{Scene, push_line};
use history_lines::Text;
use nfs3_types::{Answer, NfsCall, NfsReply, Outcome, ReadArguments, ReadSuccess};
use std::alloc::AllocError;
use tree_handles::{View, file_of};
use tree_nodes::{Nodes, reaches_end};

/// How many bytes ahead of the first that differ are shown, and how many in all.
const AHEAD: usize = 4;

const SHOWN: usize = 16;

/// Where the bytes of a reply first aren't those of the file, if they aren't. A reply may have fewer bytes than are there.
fn first_difference(there: &[u8], given: &[u8]) -> Option<usize> {
    let count = there.len().min(given.len());
    for at in 0..count {
        if there[at] != given[at] {
            return Some(at);
        }
    }
    if given.len() <= there.len() {
        None
    } else {
        Some(count)
    }
}

/// The bytes from a place on, as many as are shown.
fn shown(bytes: &[u8], from: usize) -> &[u8] {
    let behind = &bytes[from.min(bytes.len())..];
    &behind[..behind.len().min(SHOWN)]
}

/// Appends words and bytes, or that there are none.
fn push_bytes(text: &mut Text<'_>, words: &str, bytes: &[u8]) -> Result<(), AllocError> {
    text.push_words(words)?;
    if bytes.is_empty() {
        return text.push_words("no more bytes");
    }
    text.push_hex(bytes)
}

/// A line of the bytes around the first that differ, if any do, of which these stand in the file from an offset on, and these in the reply.
fn push_around(
    lines: &mut Vec<u8>,
    scene: &Scene<'_, '_>,
    offset: u64,
    there: &[u8],
    given: &[u8],
) -> Result<(), AllocError> {
    let Some(at) = first_difference(there, given) else {
        return Ok(());
    };
    let from = at.saturating_sub(AHEAD);
    let mut text = Text::new(scene.alloc);
    text.push_number("  they differ at byte ", offset.saturating_add(at as u64))?;
    text.push_number(": from byte ", offset.saturating_add(from as u64))?;
    push_bytes(&mut text, " on the file has ", shown(there, from))?;
    push_bytes(&mut text, ", the reply ", shown(given, from))?;
    push_line(lines, text)
}

/// The bytes that a file has from an offset on, at most so many.
fn piece(bytes: &[u8], offset: u64, count: usize) -> &[u8] {
    let start = offset.min(bytes.len() as u64) as usize;
    let behind = &bytes[start..];
    &behind[..behind.len().min(count)]
}

/// Appends words and how many bytes there are.
fn push_size(text: &mut Text<'_>, words: &str, count: usize) -> Result<(), AllocError> {
    push_count(text, words, count as u64, " byte", " bytes")
}

/// A line that a READ was answered with more bytes than it asked for, where it was.
fn push_too_many(
    lines: &mut Vec<u8>,
    scene: &Scene<'_, '_>,
    asked: u32,
    given: usize,
) -> Result<(), AllocError> {
    if given <= asked as usize {
        return Ok(());
    }
    let mut text = Text::new(scene.alloc);
    push_size(&mut text, "  the reply has ", given)?;
    text.push_number(", and ", u64::from(asked))?;
    text.push_words(if asked == 1 { " was" } else { " were" })?;
    text.push_words(" asked for")?;
    push_line(lines, text)
}

/// A line that the count of a reply isn't that of its bytes, where it isn't.
fn push_miscount(
    lines: &mut Vec<u8>,
    scene: &Scene<'_, '_>,
    told: u32,
    given: usize,
) -> Result<(), AllocError> {
    if told as usize == given {
        return Ok(());
    }
    let mut text = Text::new(scene.alloc);
    text.push_number("  the count is ", u64::from(told))?;
    push_size(&mut text, ", and the data have ", given)?;
    push_line(lines, text)
}

/// A line that a reply tells the file's end where it isn't, in a file of this size.
fn push_false_end(
    lines: &mut Vec<u8>,
    scene: &Scene<'_, '_>,
    size: usize,
) -> Result<(), AllocError> {
    let mut text = Text::new(scene.alloc);
    let words = "  the reply says that the file ends there (eof), and the file has ";
    push_size(&mut text, words, size)?;
    push_line(lines, text)
}

/// A line that a reply doesn't tell the file's end. From the end on a READ gets no bytes that could reach it.
fn push_untold_end(
    lines: &mut Vec<u8>,
    scene: &Scene<'_, '_>,
    size: usize,
    offset: u64,
) -> Result<(), AllocError> {
    let mut text = Text::new(scene.alloc);
    if size as u64 <= offset {
        text.push_number("  the file has no bytes from byte ", offset)?;
        text.push_words(" on")?;
    } else {
        text.push_words("  these bytes reach the end of the file")?;
    }
    text.push_words(", and the reply doesn't say so (eof)")?;
    push_line(lines, text)
}

/// The lines of a READ of a file of these bytes, one for each rule that its reply breaks (RFC 1813, section 3.3.6).
fn push_read_of(
    lines: &mut Vec<u8>,
    scene: &Scene<'_, '_>,
    bytes: &[u8],
    call: &ReadArguments,
    success: &ReadSuccess,
) -> Result<(), AllocError> {
    let given = success.bytes.as_slice();
    let count = given.len();
    let there = piece(bytes, call.offset, count.max(call.count as usize));
    push_around(lines, scene, call.offset, there, given)?;
    push_too_many(lines, scene, call.count, count)?;
    push_miscount(lines, scene, success.count, count)?;
    if success.eof == reaches_end(bytes.len(), call.offset, count) {
        return Ok(());
    }
    if success.eof {
        push_false_end(lines, scene, bytes.len())
    } else {
        push_untold_end(lines, scene, bytes.len(), call.offset)
    }
}

/// The lines of a READ, where its handle is that of a file.
fn push_read(
    lines: &mut Vec<u8>,
    scene: &Scene<'_, '_>,
    nodes: &Nodes,
    call: &ReadArguments,
    success: &ReadSuccess,
) -> Result<(), AllocError> {
    let view = View {
        binds: scene.binds,
        nodes,
    };
    let Some(entry) = file_of(&view, &call.file) else {
        return Ok(());
    };
    let mut all = Vec::new(scene.alloc);
    entry.file.bytes.put(&mut all)?;
    push_read_of(lines, scene, all.as_slice(), call, success)
}

/// Lines of where a reply differs from the tree, of calls that read or list.
pub(crate) fn push_differences(
    lines: &mut Vec<u8>,
    scene: &Scene<'_, '_>,
    nodes: &Nodes,
    call: &NfsCall,
    outcome: &Outcome,
) -> Result<(), AllocError> {
    let Outcome::Received(reply) = outcome else {
        return Ok(());
    };
    match (call, reply) {
        (NfsCall::Read(call), NfsReply::Read(Answer::Done(success))) => {
            push_read(lines, scene, nodes, call, success)
        }
        (NfsCall::ReadDir(call), NfsReply::ReadDir(Answer::Done(success))) => {
            push_names(lines, scene, nodes, call, success)
        }
        (NfsCall::ReadDirPlus(call), NfsReply::ReadDirPlus(Answer::Done(success))) => {
            push_names_plus(lines, scene, nodes, call, success)
        }
        _ => Ok(()),
    }
}
