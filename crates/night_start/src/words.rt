//! What a refusal tells, and what to do next.

use crate::refusal::{Cause, Change, Refusal, WalkFault};
use nfs3_types::{Failure, FileType, Procedure};
use std::fmt;

impl Change {
    fn words(self) -> &'static str {
        match self {
            Change::Handle => "its handle",
            Change::Kind => "its type",
            Change::FileId => "its fileid",
            Change::Size => "its size",
            Change::ModifyTime => "its mtime",
            Change::ChangeTime => "its ctime",
        }
    }
}

/// The procedures that a walk asks, by the RFC's names.
fn procedure_words(procedure: Procedure) -> &'static str {
    match procedure {
        Procedure::GetAttr => "GETATTR",
        Procedure::Lookup => "LOOKUP",
        Procedure::ReadLink => "READLINK",
        Procedure::Read => "READ",
        Procedure::ReadDir => "READDIR",
        Procedure::ReadDirPlus => "READDIRPLUS",
        _ => "a call",
    }
}

/// What can't stand in a start.
fn special_words(file_type: FileType) -> &'static str {
    match file_type {
        FileType::Socket => "a socket",
        FileType::Fifo => "a named pipe",
        FileType::BlockDevice => "a block device",
        FileType::CharacterDevice => "a character device",
        _ => "no file, directory or link",
    }
}

/// What to do about a failed call.
fn failure_advice(failure: Failure) -> &'static str {
    match failure {
        Failure::Access | Failure::NotOwner => {
            "the server refuses access: run as root, and export with no_root_squash (and insecure, for ports above 1023)"
        }
        Failure::Jukebox => "the server needs more time (NFS3ERR_JUKEBOX): run again later",
        Failure::InputOutput => {
            "the server had a hard error (NFS3ERR_IO): look at its disk and its log"
        }
        Failure::Stale | Failure::NoEntry | Failure::BadCookie => {
            "it changed while it was walked: let nothing else use the export, and run again"
        }
        _ => "look at the server's log, and run again",
    }
}

impl Refusal {
    /// What is refused of the objects.
    fn write_object<W: fmt::Write>(&self, f: &mut fmt::Formatter<W>) -> fmt::Result {
        let path = self.path.as_str();
        match self.cause {
            Cause::Special(file_type) => write!(
                f,
                "{path}: is {}, which no start can hold: remove it from the export",
                special_words(file_type)
            ),
            Cause::TwoNames => write!(
                f,
                "{path}: is the same object as {}: give the export one name for each",
                self.others.as_str()
            ),
            Cause::Linked(links) => write!(
                f,
                "{path}: has {links} names (hard links): give the export one name for each"
            ),
            Cause::TooMany => write!(
                f,
                "{path}: with this directory there are over 1000000 objects: export fewer"
            ),
            Cause::NameTooLong => write!(
                f,
                "{path}: has a name of over 1048576 bytes: remove it from the export"
            ),
            Cause::FileTooLarge(size) => write!(
                f,
                "{path}: has {size} bytes, over the 16777216 of a start: remove it from the export"
            ),
            Cause::TextTooLong => write!(
                f,
                "{path}: is a link with a text of over 1048576 bytes: remove it from the export"
            ),
            Cause::OtherFileSystem => write!(
                f,
                "{path}: lies on another file system than the root: unmount it, or export that one"
            ),
            _ => self.write_reply(f),
        }
    }

    /// What is refused of the replies.
    fn write_reply<W: fmt::Write>(&self, f: &mut fmt::Formatter<W>) -> fmt::Result {
        let path = self.path.as_str();
        match self.cause {
            Cause::Failed(failure, procedure) => write!(
                f,
                "{path}: {} failed with status {}: {}",
                procedure_words(procedure),
                failure.number(),
                failure_advice(failure)
            ),
            Cause::ListedTwice => write!(f, "{path}: is listed twice: the server's list is wrong"),
            Cause::NoName => write!(
                f,
                "{path}: lists a name of no bytes: the server's list is wrong"
            ),
            Cause::EmptyPage => write!(
                f,
                "{path}: a page of its list has no entry and isn't the last: the server's list is wrong"
            ),
            Cause::NoBytes => write!(
                f,
                "{path}: a READ ahead of its end gives no byte: the server's reply is wrong"
            ),
            Cause::TooManyBytes => write!(
                f,
                "{path}: a READ gives more bytes than it was asked for: the server's reply is wrong"
            ),
            Cause::WrongCount => write!(
                f,
                "{path}: a READ tells another count than that of its bytes: the server's reply is wrong"
            ),
            _ => write!(
                f,
                "{path}: the reply is one to another procedure: the server's reply is wrong"
            ),
        }
    }
}

impl fmt::Display for Refusal {
    fn fmt<W: fmt::Write>(&self, f: &mut fmt::Formatter<W>) -> fmt::Result {
        let path = self.path.as_str();
        match self.cause {
            Cause::NotEmpty => write!(
                f,
                "{path}: isn't empty: remove what it holds, or leave out --empty ({})",
                self.others.as_str()
            ),
            Cause::NoDirectory => write!(f, "{path}: is no directory: export one"),
            Cause::Changed(change) => write!(
                f,
                "{path}: {} changed while it was walked: let nothing else use the export, and run again",
                change.words()
            ),
            Cause::NoStart(fault) => write!(f, "{path}: the objects are no start: {fault}"),
            Cause::Unfinished => write!(f, "{path}: the walk isn't at its end"),
            _ => self.write_object(f),
        }
    }
}

impl fmt::Display for WalkFault {
    fn fmt<W: fmt::Write>(&self, f: &mut fmt::Formatter<W>) -> fmt::Result {
        match self {
            WalkFault::Refused(refusal) => write!(f, "{refusal}"),
            WalkFault::NoMemory => f.write_str("out of memory"),
        }
    }
}

impl fmt::Debug for WalkFault {
    fn fmt<W: fmt::Write>(&self, f: &mut fmt::Formatter<W>) -> fmt::Result {
        write!(f, "{self}")
    }
}
