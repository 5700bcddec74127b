//! The procedures; which one a call asks for and a reply answers, and whether the reply is a failure.

ghost use Rattle.std.specs.Prelude.{◌≡◌, ◌≤◌, MatchOption};
ghost use Rattle.nfs3_types.specs.Procedures.{number, is_judged, changes_the_tree, asked_for, answered_by, is_answered, failed, failure_in};

use crate::calls::NfsCall;
use crate::replies::{Answer, NfsReply};
use crate::status::Failure;

/// The program number of NFS (RFC 1813, section 2.2).
pub const NFS_PROGRAM: u32 = 100_003;

/// The version of NFS whose messages these are (RFC 1813, section 2.2).
pub const NFS_VERSION: u32 = 3;

/// The procedures of NFS version 3, with their numbers (RFC 1813, section 3.3).
#[derive(Clone, Copy, PartialEq, Eq)]
pub enum Procedure {
    /// `NFSPROC3_NULL`, 0: does nothing.
    Null = 0,
    /// `NFSPROC3_GETATTR`, 1: gives the attributes of an object.
    GetAttr = 1,
    /// `NFSPROC3_SETATTR`, 2: sets attributes of an object, a file's size among them.
    SetAttr = 2,
    /// `NFSPROC3_LOOKUP`, 3: gives the handle of what has a name in a directory.
    Lookup = 3,
    /// `NFSPROC3_ACCESS`, 4: tells which accesses to an object the caller may have.
    Access = 4,
    /// `NFSPROC3_READLINK`, 5: gives the text of a symbolic link.
    ReadLink = 5,
    /// `NFSPROC3_READ`, 6: reads bytes of a file.
    Read = 6,
    /// `NFSPROC3_WRITE`, 7: writes bytes to a file.
    Write = 7,
    /// `NFSPROC3_CREATE`, 8: makes a regular file.
    Create = 8,
    /// `NFSPROC3_MKDIR`, 9: makes a directory.
    MkDir = 9,
    /// `NFSPROC3_SYMLINK`, 10: makes a symbolic link.
    SymLink = 10,
    /// `NFSPROC3_MKNOD`, 11: makes a special device file, a socket or a named pipe.
    MkNod = 11,
    /// `NFSPROC3_REMOVE`, 12: removes a name that is no directory's.
    Remove = 12,
    /// `NFSPROC3_RMDIR`, 13: removes an empty directory.
    RmDir = 13,
    /// `NFSPROC3_RENAME`, 14: moves a name with its object.
    Rename = 14,
    /// `NFSPROC3_LINK`, 15: gives an object one more name.
    Link = 15,
    /// `NFSPROC3_READDIR`, 16: lists names of a directory.
    ReadDir = 16,
    /// `NFSPROC3_READDIRPLUS`, 17: lists names of a directory, with attributes and handles.
    ReadDirPlus = 17,
    /// `NFSPROC3_FSSTAT`, 18: tells of a file system's room.
    FsStat = 18,
    /// `NFSPROC3_FSINFO`, 19: tells of a file system's limits.
    FsInfo = 19,
    /// `NFSPROC3_PATHCONF`, 20: tells of the limits on names and links.
    PathConf = 20,
    /// `NFSPROC3_COMMIT`, 21: brings what was written to a file to stable storage.
    Commit = 21,
}

impl Procedure {
    /// Its number.
    pub fn number(self) -> u32
        ensures { result ≡ number self }
    {
        self as u32
    }

    /// The procedure of this number.
    pub fn from_number(wanted: u32) -> Option<Procedure>
        ensures { MatchOption result (22 ≤ wanted) (λ p. number p ≡ wanted) }
    {
        Some(match wanted {
            0 => Procedure::Null,
            1 => Procedure::GetAttr,
            2 => Procedure::SetAttr,
            3 => Procedure::Lookup,
            4 => Procedure::Access,
            5 => Procedure::ReadLink,
            6 => Procedure::Read,
            7 => Procedure::Write,
            8 => Procedure::Create,
            9 => Procedure::MkDir,
            10 => Procedure::SymLink,
            11 => Procedure::MkNod,
            12 => Procedure::Remove,
            13 => Procedure::RmDir,
            14 => Procedure::Rename,
            15 => Procedure::Link,
            16 => Procedure::ReadDir,
            17 => Procedure::ReadDirPlus,
            18 => Procedure::FsStat,
            19 => Procedure::FsInfo,
            20 => Procedure::PathConf,
            21 => Procedure::Commit,
            _ => return None,
        })
    }

    /// Whether its calls and replies are read, and its replies judged.
    pub fn is_judged(self) -> bool
        ensures { result ≡ is_judged (number self) }
    {
        matches!(
            self,
            Procedure::GetAttr
                | Procedure::SetAttr
                | Procedure::Lookup
                | Procedure::ReadLink
                | Procedure::Read
                | Procedure::Write
                | Procedure::Create
                | Procedure::MkDir
                | Procedure::SymLink
                | Procedure::Remove
                | Procedure::RmDir
                | Procedure::Rename
                | Procedure::ReadDir
                | Procedure::ReadDirPlus
                | Procedure::Commit
        )
    }

    /// Whether it is judged, and changes the tree where it succeeds.
    pub fn changes_the_tree(self) -> bool
        ensures { result ≡ changes_the_tree (number self) }
    {
        matches!(
            self,
            Procedure::SetAttr
                | Procedure::Write
                | Procedure::Create
                | Procedure::MkDir
                | Procedure::SymLink
                | Procedure::Remove
                | Procedure::RmDir
                | Procedure::Rename
        )
    }
}

impl NfsCall {
    /// The procedure that is asked for.
    pub fn procedure(&self) -> Procedure
        ensures { result ≡ asked_for self.now }
    {
        match self {
            NfsCall::GetAttr(_) => Procedure::GetAttr,
            NfsCall::SetAttr(_) => Procedure::SetAttr,
            NfsCall::Lookup(_) => Procedure::Lookup,
            NfsCall::ReadLink(_) => Procedure::ReadLink,
            NfsCall::Read(_) => Procedure::Read,
            NfsCall::Write(_) => Procedure::Write,
            NfsCall::Create(_) => Procedure::Create,
            NfsCall::MkDir(_) => Procedure::MkDir,
            NfsCall::SymLink(_) => Procedure::SymLink,
            NfsCall::Remove(_) => Procedure::Remove,
            NfsCall::RmDir(_) => Procedure::RmDir,
            NfsCall::Rename(_) => Procedure::Rename,
            NfsCall::ReadDir(_) => Procedure::ReadDir,
            NfsCall::ReadDirPlus(_) => Procedure::ReadDirPlus,
            NfsCall::Commit(_) => Procedure::Commit,
        }
    }

    /// Whether a reply is one to such a call.
    pub fn is_answered_by(&self, reply: &NfsReply) -> bool
        ensures { result ≡ is_answered self.now reply.now }
    {
        self.procedure() == reply.procedure()
    }
}

/// The status of an answer that is no success.
fn failed<S, F>(answer: &Answer<S, F>) -> Option<Failure>
    ensures { result ≡ failed answer.now }
{
    match answer {
        Answer::Done(_) => None,
        Answer::Failed(failure, _) => Some(*failure),
    }
}

impl NfsReply {
    /// The procedure that is answered.
    pub fn procedure(&self) -> Procedure
        ensures { result ≡ answered_by self.now }
    {
        match self {
            NfsReply::GetAttr(_) => Procedure::GetAttr,
            NfsReply::SetAttr(_) => Procedure::SetAttr,
            NfsReply::Lookup(_) => Procedure::Lookup,
            NfsReply::ReadLink(_) => Procedure::ReadLink,
            NfsReply::Read(_) => Procedure::Read,
            NfsReply::Write(_) => Procedure::Write,
            NfsReply::Create(_) => Procedure::Create,
            NfsReply::MkDir(_) => Procedure::MkDir,
            NfsReply::SymLink(_) => Procedure::SymLink,
            NfsReply::Remove(_) => Procedure::Remove,
            NfsReply::RmDir(_) => Procedure::RmDir,
            NfsReply::Rename(_) => Procedure::Rename,
            NfsReply::ReadDir(_) => Procedure::ReadDir,
            NfsReply::ReadDirPlus(_) => Procedure::ReadDirPlus,
            NfsReply::Commit(_) => Procedure::Commit,
        }
    }

    /// The status of a reply that is no success (RFC 1813, section 2.6).
    pub fn failure(&self) -> Option<Failure>
        ensures { result ≡ failure_in self.now }
    {
        match self {
            NfsReply::GetAttr(answer) => failed(answer),
            NfsReply::SetAttr(answer) => failed(answer),
            NfsReply::Lookup(answer) => failed(answer),
            NfsReply::ReadLink(answer) => failed(answer),
            NfsReply::Read(answer) => failed(answer),
            NfsReply::Write(answer) => failed(answer),
            NfsReply::Create(answer) => failed(answer),
            NfsReply::MkDir(answer) => failed(answer),
            NfsReply::SymLink(answer) => failed(answer),
            NfsReply::Remove(answer) => failed(answer),
            NfsReply::RmDir(answer) => failed(answer),
            NfsReply::Rename(answer) => failed(answer),
            NfsReply::ReadDir(answer) => failed(answer),
            NfsReply::ReadDirPlus(answer) => failed(answer),
            NfsReply::Commit(answer) => failed(answer),
        }
    }
}
