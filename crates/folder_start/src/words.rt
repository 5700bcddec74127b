//! What a refusal tells, and what to do next.

use crate::refusal::{Cause, FolderFault, Refusal, Special};
use std::fmt;

impl Special {
    fn words(self) -> &'static str {
        match self {
            Special::Socket => "a socket",
            Special::NamedPipe => "a named pipe",
            Special::BlockDevice => "a block device",
            Special::CharacterDevice => "a character device",
            Special::Other => "no file, directory or link",
        }
    }
}

impl Refusal {
    /// What is refused of an object.
    fn write_object<W: fmt::Write>(&self, f: &mut fmt::Formatter<W>) -> fmt::Result {
        let path = self.path.as_str();
        match self.cause {
            Cause::Special(special) => write!(
                f,
                "{path}: is {}, which no start can hold: remove it from the folder",
                special.words()
            ),
            Cause::Linked(links) => write!(
                f,
                "{path}: has {links} names (hard links): give the folder one name for each"
            ),
            Cause::NameNotText => write!(f, "{path}: has a name that isn't UTF-8: rename it"),
            Cause::NameTooLong => {
                write!(f, "{path}: has a name of over 1048576 bytes: rename it")
            }
            Cause::LinkNotText => write!(
                f,
                "{path}: is a link with a text that isn't UTF-8: remove it from the folder"
            ),
            Cause::TextTooLong => write!(
                f,
                "{path}: is a link with a text of over 1048576 bytes: remove it from the folder"
            ),
            _ => self.write_amount(f),
        }
    }

    /// What is refused since there is too much of it.
    fn write_amount<W: fmt::Write>(&self, f: &mut fmt::Formatter<W>) -> fmt::Result {
        let path = self.path.as_str();
        match self.cause {
            Cause::FileTooLarge(size) => write!(
                f,
                "{path}: has {size} bytes, over the 16777216 of a start: remove it from the folder"
            ),
            Cause::TooMany => write!(
                f,
                "{path}: with this directory there are over 1000000 objects: say a folder with fewer"
            ),
            Cause::TooManyBytes => write!(
                f,
                "{path}: with it the objects take over 268435456 bytes of a history file: say a smaller folder"
            ),
            Cause::NoStart(fault) => write!(
                f,
                "{path}: the objects are no start ({fault}): let nothing else use the folder, and run again"
            ),
            _ => write!(
                f,
                "{path}: changed while it was read: let nothing else use the folder, and run again"
            ),
        }
    }
}

impl fmt::Display for Refusal {
    fn fmt<W: fmt::Write>(&self, f: &mut fmt::Formatter<W>) -> fmt::Result {
        let path = self.path.as_str();
        match self.cause {
            Cause::NotThere => write!(f, "{path}: isn't there: say a folder that is"),
            Cause::NoDirectory => write!(f, "{path}: is no directory: say one"),
            Cause::Denied => write!(
                f,
                "{path}: permission denied: run as a user who may read it, or as root"
            ),
            Cause::PathTooLong => write!(
                f,
                "{path}: the path is too long for the system: run in the folder, and say `.`"
            ),
            Cause::Unreadable(error) => write!(
                f,
                "{path}: can't be read, {error}: look at the disk and the system's log"
            ),
            Cause::Gone => write!(
                f,
                "{path}: went while the folder was read: let nothing else use the folder, and run again"
            ),
            _ => self.write_object(f),
        }
    }
}

impl fmt::Display for FolderFault {
    fn fmt<W: fmt::Write>(&self, f: &mut fmt::Formatter<W>) -> fmt::Result {
        match self {
            FolderFault::Refused(refusal) => write!(f, "{refusal}"),
            FolderFault::NoMemory => f.write_str("out of memory"),
        }
    }
}

impl fmt::Debug for FolderFault {
    fn fmt<W: fmt::Write>(&self, f: &mut fmt::Formatter<W>) -> fmt::Result {
        write!(f, "{self}")
    }
}
