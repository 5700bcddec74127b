//! What calls do to the bytes of files.

use crate::facts::size_asked;
use nfs3_types::{Answer, Data, FileHandle, NfsCall, NfsReply, Outcome};
use search_problem::FoundCall;
use std::alloc::AllocError;

/// What a call does to a file's bytes.
pub enum Change {
    /// These bytes stand at an offset, the first so many of them.
    Wrote {
        /// Where the bytes begin, in bytes from the file's start.
        offset: u64,
        /// How many of the bytes were written.
        count: u64,
        /// The data of the WRITE.
        bytes: Data,
    },
    /// The file is cut, or filled with zeros, to a size.
    Sized(u64),
}

impl Drop for Change {
    fn drop(self) {
        match self {
            Change::Wrote {
                offset: _,
                count: _,
                bytes,
            } => drop(bytes),
            Change::Sized(_) => {}
        }
    }
}

/// How many bytes a WRITE wrote: as many as its reply says, or all.
fn written(found: &FoundCall, asked: u32) -> u64 {
    match &found.outcome {
        Outcome::Received(NfsReply::Write(Answer::Done(success))) => u64::from(success.count),
        Outcome::Received(_) => 0,
        Outcome::Taken(_) => u64::from(asked),
    }
}

/// Whether a call took effect, or may have.
fn is_done(found: &FoundCall) -> bool {
    match &found.outcome {
        Outcome::Received(reply) => reply.failure().is_none(),
        Outcome::Taken(_) => true,
    }
}

/// What a call does to a file's bytes, and to which; of a CREATE it is known by the handle that it was given.
pub fn change_of(found: &FoundCall) -> Result<Option<(FileHandle, Change)>, AllocError> {
    if !is_done(found) {
        return Ok(None);
    }
    match &found.call {
        NfsCall::Write(write) => {
            let count = written(found, write.count);
            if count == 0 {
                return Ok(None);
            }
            let change = Change::Wrote {
                offset: write.offset,
                count,
                bytes: write.bytes.clone()?,
            };
            Ok(Some((write.file.clone()?, change)))
        }
        NfsCall::SetAttr(set) => match set.attributes.size {
            Some(size) => Ok(Some((set.object.clone()?, Change::Sized(size)))),
            None => Ok(None),
        },
        NfsCall::Create(create) => match (size_asked(&create.mode), &found.outcome) {
            (Some(size), Outcome::Received(NfsReply::Create(Answer::Done(success)))) => {
                match &success.object {
                    Some(handle) => Ok(Some((handle.clone()?, Change::Sized(size)))),
                    None => Ok(None),
                }
            }
            _ => Ok(None),
        },
        _ => Ok(None),
    }
}
