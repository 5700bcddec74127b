//! The arguments of the calls.

ghost use Rattle.std.specs.Prelude.{◌≡◌, IfOk};

use crate::attributes::{SetAttributes, Time, Verifier};
use crate::bytes::{Data, FileHandle, LinkText, Name};
use crate::held::Held;
use std::alloc::AllocError;

/// A name in a directory, `diropargs3`.
#[derive(Clone, Drop)]
pub struct DirectoryName {
    /// `dir`: the handle of the directory.
    pub directory: FileHandle,
    /// `name`: the name in it.
    pub name: Name,
}

/// How far a WRITE has to have come when it is answered, `stable_how` (RFC 1813, section 3.3.7). A later
/// one promises more.
#[derive(Clone, Copy, PartialEq, Eq)]
pub enum StableHow {
    /// `UNSTABLE`, 0: nothing has to stand on stable storage yet; a COMMIT asks for that.
    Unstable = 0,
    /// `DATA_SYNC`, 1: the data stands on stable storage, with what is needed to read it back.
    DataSync = 1,
    /// `FILE_SYNC`, 2: the data and all of the file's metadata stand on stable storage.
    FileSync = 2,
}

/// How a CREATE treats a name that is present, `createhow3` (RFC 1813, section 3.3.8).
#[derive(Clone, Copy)]
pub enum CreateMode {
    /// `UNCHECKED`, 0: a file that has the name is kept. The attributes are those to set (`obj_attributes`).
    Unchecked(SetAttributes),
    /// `GUARDED`, 1: fails where the name is present. The attributes are those to set (`obj_attributes`).
    Guarded(SetAttributes),
    /// `EXCLUSIVE`, 2: succeeds where the name is absent, or is a file that this verifier made (`createverf3`).
    Exclusive(Verifier),
}

/// `SETATTR3args` (RFC 1813, section 3.3.2).
#[derive(Clone, Drop)]
pub struct SetAttrArguments {
    /// `object`: the handle of what is changed.
    pub object: FileHandle,
    /// `new_attributes`
    pub attributes: SetAttributes,
    /// The `ctime` that the object has to have for the call to succeed.
    pub guard: Option<Time>,
}

/// `READ3args` (RFC 1813, section 3.3.6).
#[derive(Clone, Drop)]
pub struct ReadArguments {
    /// `file`: the handle of the file.
    pub file: FileHandle,
    /// The first byte to read, counted from 0.
    pub offset: u64,
    /// The most bytes to read.
    pub count: u32,
}

/// `WRITE3args` (RFC 1813, section 3.3.7).
#[derive(Clone, Drop)]
pub struct WriteArguments {
    /// `file`: the handle of the file.
    pub file: FileHandle,
    /// Where the first byte goes, counted from 0.
    pub offset: u64,
    /// How many bytes to write.
    pub count: u32,
    /// `stable`
    pub level: StableHow,
    /// `data`: the bytes to write.
    pub bytes: Data,
}

/// `CREATE3args` (RFC 1813, section 3.3.8).
#[derive(Clone, Drop)]
pub struct CreateArguments {
    /// `where`: the directory and the name.
    pub place: DirectoryName,
    /// `how`: what to do where the name is present, and what to set.
    pub mode: CreateMode,
}

/// `MKDIR3args` (RFC 1813, section 3.3.9).
#[derive(Clone, Drop)]
pub struct MkDirArguments {
    /// `where`: the directory and the name.
    pub place: DirectoryName,
    /// `attributes`: what to set.
    pub attributes: SetAttributes,
}

/// `SYMLINK3args` (RFC 1813, section 3.3.10).
#[derive(Clone, Drop)]
pub struct SymLinkArguments {
    /// `where`: the directory and the name.
    pub place: DirectoryName,
    /// `symlink_attributes`: what to set.
    pub attributes: SetAttributes,
    /// `symlink_data`
    pub target: LinkText,
}

/// `RENAME3args` (RFC 1813, section 3.3.14).
#[derive(Clone, Drop)]
pub struct RenameArguments {
    /// `from`: the directory and the name of the source.
    pub from: DirectoryName,
    /// `to`: the directory and the name of the target.
    pub to: DirectoryName,
}

/// `READDIR3args` (RFC 1813, section 3.3.16).
#[derive(Clone, Drop)]
pub struct ReadDirArguments {
    /// `dir`: the handle of the directory.
    pub directory: FileHandle,
    /// 0, or the cookie of the entry behind which the list goes on.
    pub cookie: u64,
    /// `cookieverf`: the one that came with the cookie, or 0 with cookie 0.
    pub verifier: Verifier,
    /// The most bytes of the answer.
    pub count: u32,
}

/// `READDIRPLUS3args` (RFC 1813, section 3.3.17).
#[derive(Clone, Drop)]
pub struct ReadDirPlusArguments {
    /// `dir`: the handle of the directory.
    pub directory: FileHandle,
    /// 0, or the cookie of the entry behind which the list goes on.
    pub cookie: u64,
    /// `cookieverf`: the one that came with the cookie, or 0 with cookie 0.
    pub verifier: Verifier,
    /// `dircount`: the most bytes of names and cookies.
    pub directory_count: u32,
    /// `maxcount`: the most bytes of the answer.
    pub whole_count: u32,
}

/// `COMMIT3args` (RFC 1813, section 3.3.21).
#[derive(Clone, Drop)]
pub struct CommitArguments {
    /// `file`: the handle of the file.
    pub file: FileHandle,
    /// The first byte to bring to stable storage, counted from 0.
    pub offset: u64,
    /// Bytes; 0 is all that stands behind the offset.
    pub count: u32,
}

/// A call of a judged procedure.
#[derive(Clone)]
pub enum NfsCall {
    /// `NFSPROC3_GETATTR`, procedure 1: gives the attributes of the object with this handle.
    GetAttr(FileHandle),
    /// `NFSPROC3_SETATTR`, procedure 2: sets attributes of an object, a file's size among them.
    SetAttr(Held<SetAttrArguments>),
    /// `NFSPROC3_LOOKUP`, procedure 3: gives the handle of what has a name in a directory.
    Lookup(DirectoryName),
    /// `NFSPROC3_READLINK`, procedure 5: gives the text of the symbolic link with this handle.
    ReadLink(FileHandle),
    /// `NFSPROC3_READ`, procedure 6: reads bytes of a file.
    Read(ReadArguments),
    /// `NFSPROC3_WRITE`, procedure 7: writes bytes to a file.
    Write(WriteArguments),
    /// `NFSPROC3_CREATE`, procedure 8: makes a regular file.
    Create(Held<CreateArguments>),
    /// `NFSPROC3_MKDIR`, procedure 9: makes a directory.
    MkDir(Held<MkDirArguments>),
    /// `NFSPROC3_SYMLINK`, procedure 10: makes a symbolic link.
    SymLink(Held<SymLinkArguments>),
    /// `NFSPROC3_REMOVE`, procedure 12: removes a name that is no directory's.
    Remove(DirectoryName),
    /// `NFSPROC3_RMDIR`, procedure 13: removes an empty directory.
    RmDir(DirectoryName),
    /// `NFSPROC3_RENAME`, procedure 14: moves a name with its object.
    Rename(Held<RenameArguments>),
    /// `NFSPROC3_READDIR`, procedure 16: lists names of a directory.
    ReadDir(ReadDirArguments),
    /// `NFSPROC3_READDIRPLUS`, procedure 17: lists names of a directory, with attributes and handles.
    ReadDirPlus(ReadDirPlusArguments),
    /// `NFSPROC3_COMMIT`, procedure 21: brings what was written to a file to stable storage.
    Commit(CommitArguments),
}

// Written out, it is proved here alone; a derived one is proved in each crate that drops a message.
impl Drop for NfsCall {
    fn drop(self) {
        match self {
            NfsCall::GetAttr(value) => drop(value),
            NfsCall::SetAttr(value) => drop(value),
            NfsCall::Lookup(value) => drop(value),
            NfsCall::ReadLink(value) => drop(value),
            NfsCall::Read(value) => drop(value),
            NfsCall::Write(value) => drop(value),
            NfsCall::Create(value) => drop(value),
            NfsCall::MkDir(value) => drop(value),
            NfsCall::SymLink(value) => drop(value),
            NfsCall::Remove(value) => drop(value),
            NfsCall::RmDir(value) => drop(value),
            NfsCall::Rename(value) => drop(value),
            NfsCall::ReadDir(value) => drop(value),
            NfsCall::ReadDirPlus(value) => drop(value),
            NfsCall::Commit(value) => drop(value),
        }
    }
}

impl NfsCall {
    /// A second call with the same arguments.
    pub fn copy(&self) -> Result<NfsCall, AllocError>
        ensures { IfOk result (λ call. call ≡ self.now) }
    {
        self.clone()
    }
}
