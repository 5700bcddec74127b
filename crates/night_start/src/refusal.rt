//! Why an export is refused, and why a walk ends.

use nfs3_types::{Failure, FileType, Procedure};
use std::alloc::{AllocError, AllocFailed};
use thiserror::Error;
use tree_starts::StartFault;

/// What of an object was told otherwise than before.
#[derive(Clone, Copy, PartialEq, Eq)]
pub enum Change {
    /// Its handle.
    Handle,
    /// Its type.
    Kind,
    /// `fileid`
    FileId,
    /// Its size, or how many bytes a READ found.
    Size,
    /// `mtime`
    ModifyTime,
    /// `ctime`
    ChangeTime,
}

/// Why an export is refused.
#[derive(Clone, Copy, PartialEq, Eq, Drop)]
pub enum Cause {
    /// It had to be empty.
    NotEmpty,
    /// The root is no directory.
    NoDirectory,
    /// An object is no file, directory or link.
    Special(FileType),
    /// Two names lead to one object: the same handle, or the same `fileid`.
    TwoNames,
    /// A file or link has so many names (`nlink`).
    Linked(u32),
    /// There are more objects than a start can have.
    TooMany,
    /// A name of the directory has more bytes than one of a start can have.
    NameTooLong,
    /// A file has so many bytes, more than one of a start can have.
    FileTooLarge(u64),
    /// A link's text has more bytes than one of a start can have.
    TextTooLong,
    /// An object lies on another file system than the root.
    OtherFileSystem,
    /// It changed while it was walked.
    Changed(Change),
    /// The server failed a call.
    Failed(Failure, Procedure),
    /// A directory's list gives a name twice.
    ListedTwice,
    /// A directory's list gives a name of no bytes.
    NoName,
    /// A page of a list has no entry, and isn't the last.
    EmptyPage,
    /// A READ gives no byte, and isn't at the end.
    NoBytes,
    /// A READ gives more bytes than it was asked for.
    TooManyBytes,
    /// A READ tells another count than that of its bytes.
    WrongCount,
    /// The reply is one to another procedure.
    WrongReply,
    /// The objects are no start.
    NoStart(StartFault),
    /// The walk isn't at its end, or its own account of its replies is wrong.
    Unfinished,
}

/// An export that is refused.
#[derive(Drop)]
pub struct Refusal {
    /// Why.
    pub cause: Cause,
    /// The path of what it is about, from the root on. A byte that isn't printed is two hexadecimal digits behind `\x`.
    pub path: String,
    /// Where two names lead to one object, the other path; where the export had to be empty, the first names in it.
    pub others: String,
}

/// Why a walk ends without a start.
#[derive(Drop, Error)]
pub enum WalkFault {
    /// The export is refused.
    Refused(Refusal),
    /// Memory ran out.
    NoMemory,
}

/// What a refusal is about.
#[derive(Clone, Copy)]
pub(crate) enum Spot {
    /// The object of an account.
    Account(usize),
    /// A name of the list that is read.
    Entry(usize),
}

/// Why an explorer stops, before its path is written.
#[derive(Clone, Copy)]
pub(crate) enum Stop {
    Refused {
        cause: Cause,
        spot: Spot,
        /// The account of the other name.
        other: Option<usize>,
    },
    NoMemory,
}

impl Stop {
    /// A refusal of this.
    pub(crate) fn at(cause: Cause, spot: Spot) -> Stop {
        Stop::Refused {
            cause,
            spot,
            other: None,
        }
    }
}

impl From<AllocError> for Stop {
    fn from(_error: AllocError) -> Stop {
        Stop::NoMemory
    }
}

impl<T: Drop> From<AllocFailed<T>> for Stop {
    fn from(_error: AllocFailed<T>) -> Stop {
        Stop::NoMemory
    }
}

impl From<AllocError> for WalkFault {
    fn from(_error: AllocError) -> WalkFault {
        WalkFault::NoMemory
    }
}

impl<T: Drop> From<AllocFailed<T>> for WalkFault {
    fn from(_error: AllocFailed<T>) -> WalkFault {
        WalkFault::NoMemory
    }
}
