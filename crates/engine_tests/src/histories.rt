//! History files whose messages are rows of words (`docs/FORMATS.md`; the messages are those of RFC 5531 and RFC 1813).

use std::alloc::{AllocError, Global};

/// A call and its reply: the procedure, and the words of its arguments and of its result. A handle and a name are a length and a word.
#[derive(Clone, Copy)]
pub(crate) struct Exchange(
    pub(crate) u32,
    pub(crate) &'static [u32],
    pub(crate) &'static [u32],
);

/// What happened. An exchange has its lane and its transaction number.
#[derive(Clone, Copy)]
pub(crate) enum Happened {
    Asked(u32, u32, Exchange),
    Answered(u32, u32, Exchange),
    /// It is asked and answered.
    Done(u32, u32, Exchange),
    Closed(u32),
    Crashed,
}

/// The front of a file, up to the number of its events: the root handle is 00, and the server held nothing at first.
pub(crate) const PLAIN: &[u8] = b"NFSHIST1\0\0\0\x01\0\0\0\0";

/// The handle aa.
pub(crate) const AA: u32 = 0xaa00_0000;

/// NULL.
pub(crate) const NULL: Exchange = Exchange(0, &[], &[]);

/// The arguments of an UNCHECKED CREATE of `a` in the root.
pub(crate) const NAMED_A: &[u32] = &[1, 0, 1, 0x6100_0000, 0, 0, 0, 0, 0, 0, 0];

/// The result of a CREATE that gives the handle aa, and no attributes.
pub(crate) const GIVES_AA: &[u32] = &[0, 1, 1, AA, 0, 0, 0];

pub(crate) const CREATE_A: Exchange = Exchange(8, NAMED_A, GIVES_AA);

fn put_words(out: &mut Vec<u8>, words: &[u32]) -> Result<(), AllocError> {
    for word in words {
        out.extend_from_slice(word.to_be_bytes().as_slice())?;
    }
    Ok(())
}

/// How many bytes these words are.
fn byte_count(words: &[u32]) -> u32 {
    u32::try_from(words.len()).unwrap_or(0).saturating_mul(4)
}

/// Puts a message after some words and its length, of which this is a part.
fn put_message(
    out: &mut Vec<u8>,
    front: &[u32],
    part: u32,
    head: &[u32],
    body: &[u32],
) -> Result<(), AllocError> {
    let length = byte_count(head).saturating_add(byte_count(body));
    put_words(out, front)?;
    put_words(out, &[part | length])?;
    put_words(out, head)?;
    put_words(out, body)
}

/// Puts a call (RFC 5531, section 9).
fn put_call(
    out: &mut Vec<u8>,
    front: &[u32],
    part: u32,
    xid: u32,
    exchange: Exchange,
) -> Result<(), AllocError> {
    let Exchange(procedure, arguments, _) = exchange;
    let head = [xid, 0, 2, 100_003, 3, procedure, 0, 0, 0, 0];
    put_message(out, front, part, &head, arguments)
}

/// Puts a reply.
fn put_reply(
    out: &mut Vec<u8>,
    front: &[u32],
    part: u32,
    xid: u32,
    exchange: Exchange,
) -> Result<(), AllocError> {
    let Exchange(_, _, words) = exchange;
    put_message(out, front, part, &[xid, 1, 0, 0, 0, 0], words)
}

/// Puts the events of what happened.
fn put_events(out: &mut Vec<u8>, happened: Happened) -> Result<(), AllocError> {
    match happened {
        Happened::Asked(lane, xid, exchange) => put_call(out, &[0, lane], 0, xid, exchange),
        Happened::Answered(lane, xid, exchange) => put_reply(out, &[1, lane], 0, xid, exchange),
        Happened::Done(lane, xid, exchange) => {
            put_call(out, &[0, lane], 0, xid, exchange)?;
            put_reply(out, &[1, lane], 0, xid, exchange)
        }
        Happened::Closed(lane) => put_words(out, &[2, lane]),
        Happened::Crashed => put_words(out, &[3]),
    }
}

/// How many events these are.
fn events(list: &[Happened]) -> u32 {
    let mut count: u32 = 0;
    for happened in list {
        count = match happened {
            Happened::Done(_, _, _) => count.saturating_add(2),
            _ => count.saturating_add(1),
        };
    }
    count
}

/// The file of these events, with this front.
pub(crate) fn file(alloc: Global, front: &[u8], list: &[Happened]) -> Result<Vec<u8>, AllocError> {
    let mut out = Vec::from_slice(alloc, front)?;
    put_words(&mut out, &[events(list)])?;
    for happened in list {
        put_events(&mut out, *happened)?;
    }
    Ok(out)
}

/// What the length of a record's last fragment has beside (RFC 5531, section 11).
const LAST: u32 = 0x8000_0000;

/// The call and the reply of an exchange with this transaction number, each a record of one fragment.
pub(crate) fn records(
    alloc: Global,
    xid: u32,
    exchange: Exchange,
) -> Result<(Vec<u8>, Vec<u8>), AllocError> {
    let mut call = Vec::new(alloc);
    put_call(&mut call, &[], LAST, xid, exchange)?;
    let mut reply = Vec::new(alloc);
    put_reply(&mut reply, &[], LAST, xid, exchange)?;
    Ok((call, reply))
}
