//! Files that were left as they were written so far, made by hand after `docs/FORMATS.md`, cut at each byte.

use history_file::{FileFault, SeenEvent, WriteFault};
use history_mending::{End, append_event, mend, mended_file, part_head, part_head_from, put_next};
use nfs_history::{Event, EventFault, Message};
use nfs3_types::Name;
use std::alloc::{AllocError, Global};
use std::test::Fail;
use tree_starts::{Profile, Start, StartFault, StartNode, StartObject};
use xdr_records::put_u32;

/// The magic `NFSHIST1`, a root handle of four bytes, and no number of events.
const FIRST: &[u32] = &[0x4e465348, 0x49535431, 4, 0x01020304, 0];

/// The magic `NFSHIST2`, the same root handle, the strict profile, one starting object: a directory `a` in the root; and no number of events.
const SECOND: &[u32] = &[
    0x4e465348, 0x49535432, 4, 0x01020304, 1, 1, 0, 0, 1, 0x61000000, 2, 0,
];

/// A call of NFS version 3 and its reply on lane 7 (RFC 5531, section 9), then its close, then a crash.
const EVENTS: [u32; 25] = [
    0, 7, 40, 1, 0, 2, 100_003, 3, 0, 0, 0, 0, 0, 1, 7, 24, 1, 1, 0, 0, 0, 0, 2, 7, 3,
];

/// How many bytes of these end with an event.
const ENDS: [usize; 5] = [0, 52, 88, 96, 100];

/// Appends words.
pub(crate) fn put_words(out: &mut Vec<u8>, words: &[u32]) -> Result<(), AllocError> {
    for word in words {
        put_u32(out, *word)?;
    }
    Ok(())
}

/// A head, and words after it.
pub(crate) fn bytes_of(alloc: Global, head: &[u32], words: &[u32]) -> Result<Vec<u8>, AllocError> {
    let mut out = Vec::new(alloc);
    put_words(&mut out, head)?;
    put_words(&mut out, words)?;
    Ok(out)
}

/// How many events are given, where these end, and why.
type Given = Result<(usize, usize, End), FileFault>;

/// What some bytes give.
fn given(alloc: Global, bytes: &[u8]) -> Given {
    let mended = mend(alloc, bytes)?;
    Ok((mended.events.len(), mended.events_end, mended.end))
}

/// What is to be given of a head of so many bytes and the events, cut after so many bytes.
fn wanted(head: usize, count: usize) -> Given {
    if count < 8 {
        return Err(FileFault::BadMagic);
    }
    if count < head {
        return Err(FileFault::Truncated);
    }
    let cut = count.saturating_sub(head);
    let mut whole = (0, 0);
    for (events, end) in ENDS.iter().enumerate() {
        if *end <= cut {
            whole = (events, *end);
        }
    }
    let (events, end) = whole;
    let why = if end == cut { End::Whole } else { End::Cut };
    Ok((events, head.saturating_add(end), why))
}

/// Whether each front of a file with this head gives what it should.
fn are_cuts_right(alloc: Global, words: &[u32]) -> Result<bool, AllocError> {
    let head = words.len().saturating_mul(4);
    let bytes = bytes_of(alloc, words, EVENTS.as_slice())?;
    for count in 0..bytes.len().saturating_add(1) {
        let cut = bytes.as_slice().get(..count).unwrap_or(b"".as_slice());
        if given(alloc, cut) != wanted(head, count) {
            return Ok(false);
        }
    }
    Ok(true)
}

const BAD_RPC: End = End::CannotFollow(EventFault::BadRpc(2));

const CLOSED: End = End::CannotFollow(EventFault::LaneClosed(2));

/// The two words of the magic of version 2.
const MAGIC: u32 = 0x4e465348;

const TWO: u32 = 0x49535432;

/// A head, words after it, and what these give.
const FILES: [(&[u32], &[u32], Given); 9] = [
    (FIRST, &[3, 3, 4], Ok((2, 28, End::NoEvent))),
    (FIRST, &[3, 0, 7, 0x00200001], Ok((1, 24, End::NoEvent))),
    (FIRST, &[3, 0, 7, 0x00200000], Ok((1, 24, End::Cut))),
    (FIRST, &[3, 0, 0, 0, 0, 0], Ok((1, 24, BAD_RPC))),
    (FIRST, &[2, 7, 2, 7, 3], Ok((1, 28, CLOSED))),
    (&[MAGIC, 0x49535433, 0, 0], &[], Err(FileFault::BadMagic)),
    (&[MAGIC, TWO], &[65], Err(FileFault::TooLarge)),
    (&[MAGIC, TWO], &[0, 2, 0, 0], Err(FileFault::BadProfile)),
    (
        &[MAGIC, TWO, 0, 0],
        &[1, 0, 1, 0],
        Err(FileFault::BadStart(1)),
    ),
];

/// Whether a file of these words gives this.
fn is_given(alloc: Global, head: &[u32], words: &[u32], want: Given) -> Result<bool, AllocError> {
    let bytes = bytes_of(alloc, head, words)?;
    Ok(given(alloc, bytes.as_slice()) == want)
}

#[test]
fn each_cut_and_each_end_is_told(rt: HostRuntime) -> Result<(), Fail> {
    assert!(rt; are_cuts_right(rt.alloc(), FIRST)?);
    assert!(rt; are_cuts_right(rt.alloc(), SECOND)?);
    for (head, words, want) in FILES {
        assert!(rt; is_given(rt.alloc(), head, words, want)?);
    }
    Ok(())
}

/// What so many crashes give.
fn given_of_crashes(alloc: Global, count: usize) -> Given {
    let mut bytes = bytes_of(alloc, FIRST, &[])?;
    for _ in 0..count {
        put_u32(&mut bytes, 3)?;
    }
    given(alloc, bytes.as_slice())
}

/// Whether the history of a file with this head is that of its three whole events: the number is put in, and nothing else changes.
fn is_file_right(alloc: Global, words: &[u32]) -> Result<bool, FileFault> {
    let front = words.get(..words.len().saturating_sub(1)).unwrap_or(words);
    let mut wanted = bytes_of(alloc, front, &[3])?;
    put_words(&mut wanted, &EVENTS[..24])?;
    let mut left = bytes_of(alloc, words, &EVENTS[..24])?;
    put_words(&mut left, &[0, 7, 40, 2])?;
    let mended = mend(alloc, left.as_slice())?;
    let file = mended_file(alloc, left.as_slice(), &mended)?;
    Ok(file.as_slice() == wanted.as_slice())
}

#[test]
fn a_history_has_a_limit(rt: HostRuntime) {
    let alloc = rt.alloc();
    assert!(rt; given_of_crashes(alloc, 1_000_000) == Ok((1_000_000, 4_000_020, End::Whole)));
    assert!(rt; given_of_crashes(alloc, 1_000_001) == Ok((1_000_000, 4_000_020, End::Full)));
}

fn append_call(out: &mut Vec<u8>, message: &[u8]) -> Result<(), WriteFault> {
    append_event(out, &SeenEvent::Call { lane: 7, message })
}

fn append_reply(out: &mut Vec<u8>, message: &[u8]) -> Result<(), WriteFault> {
    append_event(out, &SeenEvent::Reply { lane: 7, message })
}

/// The four events, appended after a head.
fn append_all(alloc: Global, out: &mut Vec<u8>) -> Result<(), WriteFault> {
    let mut call = Vec::new(alloc);
    put_words(&mut call, &EVENTS[3..13])?;
    let mut reply = Vec::new(alloc);
    put_words(&mut reply, &EVENTS[16..22])?;
    append_call(out, call.as_slice())?;
    append_reply(out, reply.as_slice())?;
    append_event(out, &SeenEvent::Close { lane: 7 })?;
    append_event(out, &SeenEvent::Crash)
}

/// The start of one directory `a` in the root.
fn one_directory(alloc: Global) -> Result<Start, StartFault> {
    let mut objects = Vec::new(alloc);
    objects.push(StartObject {
        parent: 0,
        name: Name::from_slice(alloc, b"a".as_slice())?,
        node: StartNode::Directory,
    })?;
    Start::new(alloc, objects)
}

/// Whether the events after a part's head are the same as made by hand.
fn is_written(
    alloc: Global,
    head: Result<Vec<u8>, WriteFault>,
    words: &[u32],
) -> Result<bool, WriteFault> {
    let mut out = head?;
    append_all(alloc, &mut out)?;
    let wanted = bytes_of(alloc, words, EVENTS.as_slice())?;
    Ok(out.as_slice() == wanted.as_slice())
}

#[test]
fn the_number_is_put_in_and_events_are_appended(rt: HostRuntime) -> Result<(), Fail> {
    assert!(rt; is_file_right(rt.alloc(), FIRST) == Ok(true));
    assert!(rt; is_file_right(rt.alloc(), SECOND) == Ok(true));
    let (alloc, root) = (rt.alloc(), [1, 2, 3, 4]);
    let start = one_directory(alloc)?;
    let first = part_head(alloc, root.as_slice());
    assert!(rt; is_written(alloc, first, FIRST) == Ok(true));
    let second = part_head_from(alloc, root.as_slice(), Profile::Strict, &start);
    assert!(rt; is_written(alloc, second, SECOND) == Ok(true));
    Ok(())
}

/// An event of no bytes, or a reply of so many.
fn event(alloc: Global, size: usize) -> Result<Event, AllocError> {
    if size == 0 {
        return Ok(Event::Crash);
    }
    let bytes = Vec::from_elem(alloc, 0u8, size)?;
    let message = Message::from_slice(alloc, bytes.as_slice())?;
    Ok(Event::Reply { lane: 7, message })
}

/// Of so many events of such a size, how many are put first, into how many bytes, and how many after them.
fn put_twice(
    alloc: Global,
    count: usize,
    size: usize,
) -> Result<(usize, usize, usize), WriteFault> {
    let mut events = Vec::new(alloc);
    for _ in 0..count {
        events.push(event(alloc, size)?)?;
    }
    let mut text = Vec::new(alloc);
    let first = put_next(&mut text, events.as_slice(), 0)?;
    let size = text.len();
    let second = put_next(&mut text, events.as_slice(), first)?;
    Ok((first, size, second))
}

/// How a call of so many zeros is appended.
fn append_long(alloc: Global, size: usize) -> Result<(), WriteFault> {
    let message = Vec::from_elem(alloc, 0u8, size)?;
    append_call(&mut Vec::new(alloc), message.as_slice())
}

#[test]
fn events_are_put_in_pieces_and_none_is_too_large(rt: HostRuntime) -> Result<(), Fail> {
    let alloc = rt.alloc();
    assert!(rt; put_twice(alloc, 1_025, 0) == Ok((1_024, 4_096, 1)));
    assert!(rt; put_twice(alloc, 3, 131_072) == Ok((2, 262_168, 1)));
    let root = Vec::from_elem(alloc, 0u8, 65)?;
    let root = part_head(alloc, root.as_slice()).err();
    assert!(rt; append_long(alloc, 2_097_153) == Err(WriteFault::TooLarge));
    assert!(rt; append_long(alloc, 2_097_152) == Ok(()));
    assert!(rt; root == Some(WriteFault::TooLarge));
    Ok(())
}
