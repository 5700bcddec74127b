//! Calls of small trees and what is answered, in the words of RFC 1813 (section 3.3).

use nfs3_msgs::{NfsCall, Outcome, read_args, read_result};
use std::alloc::{AllocError, Global};
use xdr_records::{put_opaque, put_u32};

/// What is asked, and what is answered. A handle or a name has one byte; the root's handle is 0. A reply gives no attributes.
#[derive(Clone, Copy)]
pub(crate) enum Request {
    /// UNCHECKED CREATE of a name in a directory, which gives this handle or none.
    Create(u8, u8, Option<u8>),
    /// GUARDED CREATE of a name in the root, which gives this handle.
    Guarded(u8, u8),
    /// UNCHECKED CREATE of a name in the root, to which no reply comes.
    Taken(u8),
    /// MKDIR of a name in a directory, which gives this handle or none.
    MakeDirectory(u8, u8, Option<u8>),
    /// LOOKUP of a name in a directory, which gives this handle.
    Lookup(u8, u8, u8),
    /// LOOKUP of a name in a directory, which fails: there is none.
    Absent(u8, u8),
    /// WRITE at this level of these bytes, at most four, to the front of a file.
    Write(u8, u32, &'static [u8]),
    /// READ of nine bytes at the front of a file, which has these alone, at most four.
    Read(u8, &'static [u8]),
    /// RENAME of a name in the root to one in a directory.
    Rename(u8, u8, u8),
    /// REMOVE of a name in the root.
    Remove(u8),
    /// GETATTR, which fails: the handle names nothing.
    Stale(u8),
    /// READDIRPLUS of the root, which gives `a` and `b` with these handles, and `..` with handle 1.
    List(u8, u8),
}

/// Levels of a WRITE: UNSTABLE and FILE_SYNC.
pub(crate) const UNSTABLE: u32 = 0;

pub(crate) const SYNCED: u32 = 2;

/// Appends words.
pub(crate) fn put_words(out: &mut Vec<u8>, words: &[u32]) -> Result<(), AllocError> {
    for word in words {
        put_u32(out, *word)?;
    }
    Ok(())
}

/// The word of an item of one byte, after its length.
fn padded(byte: u8) -> u32 {
    u32::from_be_bytes([byte, 0, 0, 0])
}

/// How many bytes of a text count.
fn count_of(text: &[u8]) -> u32 {
    text.len().min(4) as u32
}

/// Appends how many bytes a text has, a word, and the text.
fn put_text(out: &mut Vec<u8>, word: u32, text: &[u8]) -> Result<(), AllocError> {
    put_words(out, &[count_of(text), word])?;
    put_opaque(out, &text[..text.len().min(4)])
}

/// The number of the procedure.
pub(crate) fn procedure(request: Request) -> u32 {
    match request {
        Request::Stale(_) => 1,
        Request::Lookup(..) | Request::Absent(..) => 3,
        Request::Read(..) => 6,
        Request::Write(..) => 7,
        Request::Create(..) | Request::Guarded(..) | Request::Taken(_) => 8,
        Request::MakeDirectory(..) => 9,
        Request::Remove(_) => 12,
        Request::Rename(..) => 14,
        Request::List(..) => 17,
    }
}

/// Appends a name in a directory, and a CREATE's mode or nothing, before attributes that aren't set.
fn put_new(out: &mut Vec<u8>, directory: u8, name: u8, mode: &[u32]) -> Result<(), AllocError> {
    put_words(out, &[1, padded(directory), 1, padded(name)])?;
    put_words(out, mode)?;
    put_words(out, &[0; 6])
}

/// Appends the arguments of the call.
pub(crate) fn put_arguments(out: &mut Vec<u8>, request: Request) -> Result<(), AllocError> {
    match request {
        Request::Create(directory, name, _) => put_new(out, directory, name, &[0]),
        Request::Guarded(name, _) => put_new(out, 0, name, &[1]),
        Request::Taken(name) => put_new(out, 0, name, &[0]),
        Request::MakeDirectory(directory, name, _) => put_new(out, directory, name, &[]),
        Request::Lookup(directory, name, _) | Request::Absent(directory, name) => {
            put_words(out, &[1, padded(directory), 1, padded(name)])
        }
        Request::Write(file, level, text) => {
            put_words(out, &[1, padded(file), 0, 0])?;
            put_text(out, level, text)
        }
        Request::Read(file, _) => put_words(out, &[1, padded(file), 0, 0, 9]),
        Request::Rename(from, directory, to) => put_words(
            out,
            &[1, 0, 1, padded(from), 1, padded(directory), 1, padded(to)],
        ),
        Request::Remove(name) => put_words(out, &[1, 0, 1, padded(name)]),
        Request::Stale(object) => put_words(out, &[1, padded(object)]),
        Request::List(..) => put_words(out, &[1, 0, 0, 0, 0, 0, 4096, 4096]),
    }
}

/// Appends an entry of a list: a name of so many bytes, which this word has, and its handle.
fn put_entry(out: &mut Vec<u8>, length: u32, name: u32, handle: u8) -> Result<(), AllocError> {
    put_words(out, &[1, 0, 0, length, name, 0, 0, 0, 1, 1, padded(handle)])
}

/// Appends the list of the root.
fn put_list(out: &mut Vec<u8>, a: u8, b: u8) -> Result<(), AllocError> {
    put_words(out, &[0, 0, 0, 0])?;
    put_entry(out, 2, 0x2e2e_0000, 1)?;
    put_entry(out, 1, padded(b'a'), a)?;
    put_entry(out, 1, padded(b'b'), b)?;
    put_words(out, &[0, 1])
}

/// Appends the result of the reply, none where no reply comes.
pub(crate) fn put_result(out: &mut Vec<u8>, request: Request) -> Result<(), AllocError> {
    match request {
        Request::Create(_, _, Some(handle))
        | Request::Guarded(_, handle)
        | Request::MakeDirectory(_, _, Some(handle)) => {
            put_words(out, &[0, 1, 1, padded(handle), 0, 0, 0])
        }
        Request::Create(..) | Request::MakeDirectory(..) | Request::Rename(..) => {
            put_words(out, &[0; 5])
        }
        Request::Taken(_) => Ok(()),
        Request::Lookup(_, _, handle) => put_words(out, &[0, 1, padded(handle), 0, 0]),
        Request::Absent(..) => put_words(out, &[2, 0]),
        Request::Write(_, level, text) => {
            put_words(out, &[0, 0, 0, count_of(text), level, 0, 1])
        }
        Request::Read(_, text) => {
            put_words(out, &[0, 0])?;
            put_text(out, 1, text)
        }
        Request::Remove(_) => put_words(out, &[0; 3]),
        Request::Stale(_) => put_words(out, &[70]),
        Request::List(a, b) => put_list(out, a, b),
    }
}

/// The call that asks so. What can't be read fails as if memory ran out.
pub(crate) fn call(alloc: Global, request: Request) -> Result<NfsCall, AllocError> {
    let mut bytes = Vec::new(alloc);
    put_arguments(&mut bytes, request)?;
    match read_args(alloc, procedure(request), bytes.as_slice()) {
        Ok(call) => Ok(call),
        Err(_) => Err(AllocError),
    }
}

/// What comes of the call. What can't be read fails as if memory ran out.
pub(crate) fn outcome(alloc: Global, request: Request) -> Result<Outcome, AllocError> {
    if let Request::Taken(_) = request {
        return Ok(Outcome::Taken(None));
    }
    let mut bytes = Vec::new(alloc);
    put_result(&mut bytes, request)?;
    match read_result(alloc, procedure(request), bytes.as_slice()) {
        Ok(reply) => Ok(Outcome::Received(reply)),
        Err(_) => Err(AllocError),
    }
}
