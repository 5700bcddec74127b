//! Why a folder is refused.

use std::alloc::{AllocError, AllocFailed};
use std::fs::Metadata;
use std::io::{self, ErrorKind};
use std::os::unix::fs::FileTypeExt;
use thiserror::Error;
use tree_starts::StartFault;

/// The system's number of an error that says that a path is too long (`ENAMETOOLONG`).
const PATH_TOO_LONG: i32 = 36;

/// What is no file, directory or link.
#[derive(Clone, Copy)]
pub enum Special {
    /// A socket.
    Socket,
    /// A named pipe.
    NamedPipe,
    /// A block device.
    BlockDevice,
    /// A character device.
    CharacterDevice,
    /// None of these.
    Other,
}

impl Special {
    /// What the system tells of an object that is no file, directory or link.
    pub(crate) fn of(told: &Metadata) -> Special {
        let kind = told.file_type();
        if kind.is_socket() {
            return Special::Socket;
        }
        if kind.is_fifo() {
            return Special::NamedPipe;
        }
        if kind.is_block_device() {
            return Special::BlockDevice;
        }
        if kind.is_char_device() {
            return Special::CharacterDevice;
        }
        Special::Other
    }
}

/// Why a folder is refused.
#[derive(Clone, Copy)]
pub enum Cause {
    /// The folder isn't there.
    NotThere,
    /// It is no directory.
    NoDirectory,
    /// The system refuses to let it be read.
    Denied,
    /// The path has more bytes than the system takes.
    PathTooLong,
    /// It can't be read, for another reason of the system's.
    Unreadable(io::Error),
    /// It went while the folder was read.
    Gone,
    /// It changed while it was read.
    Changed,
    /// An object is no file, directory or link.
    Special(Special),
    /// A file or link has so many names (`nlink`).
    Linked(u64),
    /// A name isn't UTF-8.
    NameNotText,
    /// A name has more bytes than one of a start can have.
    NameTooLong,
    /// A link's text isn't UTF-8.
    LinkNotText,
    /// A link's text has more bytes than one of a start can have.
    TextTooLong,
    /// A file has so many bytes, more than one of a start can have.
    FileTooLarge(u64),
    /// There are more objects than a start can have.
    TooMany,
    /// The objects take more bytes than a history file can have.
    TooManyBytes,
    /// The objects are no start.
    NoStart(StartFault),
}

impl Cause {
    /// Why the folder itself can't be looked at.
    pub(crate) fn of_folder(error: io::Error) -> Cause {
        match error.kind() {
            ErrorKind::NotFound => Cause::NotThere,
            ErrorKind::NotADirectory => Cause::NoDirectory,
            _ => Cause::of_error(error),
        }
    }

    /// Why an object that was listed can't be read.
    pub(crate) fn of_object(error: io::Error) -> Cause {
        match error.kind() {
            ErrorKind::NotFound => Cause::Gone,
            ErrorKind::NotADirectory => Cause::Changed,
            _ => Cause::of_error(error),
        }
    }

    fn of_error(error: io::Error) -> Cause {
        if error.raw_os_error() == Some(PATH_TOO_LONG) {
            return Cause::PathTooLong;
        }
        match error.kind() {
            ErrorKind::PermissionDenied => Cause::Denied,
            _ => Cause::Unreadable(error),
        }
    }
}

/// A folder that is refused.
#[derive(Drop)]
pub struct Refusal {
    /// Why.
    pub cause: Cause,
    /// The path of what it is about, from what was named as the folder on. A byte that isn't printed is two hexadecimal digits behind
    /// `\x`.
    pub path: String,
}

/// Why a folder gives no start.
#[derive(Drop, Error)]
pub enum FolderFault {
    /// The folder is refused.
    Refused(Refusal),
    /// Memory ran out.
    NoMemory,
}

/// Why an object isn't taken, before its path is written.
#[derive(Clone, Copy)]
pub(crate) enum Stop {
    Refused(Cause),
    NoMemory,
}

impl Stop {
    /// The folder itself can't be looked at.
    pub(crate) fn of_folder(error: io::Error) -> Stop {
        match error.kind() {
            ErrorKind::OutOfMemory => Stop::NoMemory,
            _ => Stop::Refused(Cause::of_folder(error)),
        }
    }

    /// An object that was listed can't be read.
    pub(crate) fn of_object(error: io::Error) -> Stop {
        match error.kind() {
            ErrorKind::OutOfMemory => Stop::NoMemory,
            _ => Stop::Refused(Cause::of_object(error)),
        }
    }

    /// A link's text can't be read. Without a number of the system's, a bad name is one that isn't UTF-8.
    pub(crate) fn of_link(error: io::Error) -> Stop {
        if error.kind() == ErrorKind::InvalidFilename && error.raw_os_error().is_none() {
            return Stop::Refused(Cause::LinkNotText);
        }
        Stop::of_object(error)
    }
}

impl From<AllocError> for Stop {
    fn from(_error: AllocError) -> Stop {
        Stop::NoMemory
    }
}

impl<T: Drop> From<AllocFailed<T>> for Stop {
    fn from(_error: AllocFailed<T>) -> Stop {
        Stop::NoMemory
    }
}

impl From<AllocError> for FolderFault {
    fn from(_error: AllocError) -> FolderFault {
        FolderFault::NoMemory
    }
}
