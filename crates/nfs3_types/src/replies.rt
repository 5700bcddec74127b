//! The results of the calls, and what a history knows of a call's end.

ghost use Rattle.std.specs.Prelude.{◌≡◌, IfOk};

use crate::attributes::{FileAttributes, Verifier, WccData};
use crate::bytes::{Data, FileHandle, LinkText, Name};
use crate::calls::StableHow;
use crate::held::{Held, Optional};
use crate::item_list::ItemList;
use crate::status::Failure;
use std::alloc::AllocError;

/// A result: what stands behind `NFS3_OK`, or the failure's status and what stands behind it.
#[derive(Clone, Drop)]
pub enum Answer<S, F> {
    /// `NFS3_OK`, 0: the call succeeded, with what stands behind the status.
    Done(S),
    /// Another status, with what stands behind it.
    Failed(Failure, F),
}

/// `LOOKUP3resok` (RFC 1813, section 3.3.3).
#[derive(Clone, Drop)]
pub struct LookupSuccess {
    /// `object`: the handle of what has the name.
    pub object: FileHandle,
    /// `obj_attributes`: those of the object.
    pub attributes: Optional<FileAttributes>,
    /// `dir_attributes`
    pub directory_attributes: Optional<FileAttributes>,
}

/// `READLINK3resok` (RFC 1813, section 3.3.5).
#[derive(Clone, Drop)]
pub struct ReadLinkSuccess {
    /// `symlink_attributes`: those of the link.
    pub attributes: Optional<FileAttributes>,
    /// `data`: the text of the link.
    pub target: LinkText,
}

/// `READ3resok` (RFC 1813, section 3.3.6).
#[derive(Clone, Drop)]
pub struct ReadSuccess {
    /// `file_attributes`: those of the file.
    pub attributes: Optional<FileAttributes>,
    /// How many bytes were read.
    pub count: u32,
    /// Whether the read bytes reach the end of the file.
    pub eof: bool,
    /// `data`: the bytes that were read.
    pub bytes: Data,
}

/// `WRITE3resok` (RFC 1813, section 3.3.7).
#[derive(Clone, Drop)]
pub struct WriteSuccess {
    /// `file_wcc`: of the file.
    pub wcc: WccData,
    /// How many bytes were written.
    pub count: u32,
    /// `committed`
    pub level: StableHow,
    /// `verf` (`writeverf3`): another one than before tells that unstable writes may be lost.
    pub verifier: Verifier,
}

/// `CREATE3resok`, `MKDIR3resok` and `SYMLINK3resok` (RFC 1813, sections 3.3.8 to 3.3.10).
#[derive(Clone, Drop)]
pub struct CreateSuccess {
    /// `obj`: the handle of what was made, where the server gives it.
    pub object: Option<FileHandle>,
    /// `obj_attributes`: those of what was made.
    pub attributes: Optional<FileAttributes>,
    /// Of the directory.
    pub wcc: WccData,
}

/// What stands behind the status of a RENAME, done or failed (RFC 1813, section 3.3.14).
#[derive(Clone, Drop)]
pub struct RenameWcc {
    /// `fromdir_wcc`
    pub from: WccData,
    /// `todir_wcc`
    pub to: WccData,
}

/// An entry of a directory, `entry3` (RFC 1813, section 3.3.16).
#[derive(Drop)]
pub struct DirectoryEntry {
    /// `fileid`
    pub file_number: u64,
    /// `name`: the name in the directory.
    pub name: Name,
    /// `cookie`: asks, in a later call, for the list behind this entry.
    pub cookie: u64,
}

impl Clone for DirectoryEntry {
    ghost is_clone = { λ x y. y ≡ x };

    fn clone(&self) -> Result<DirectoryEntry, AllocError> {
        Ok(DirectoryEntry {
            file_number: self.file_number,
            name: self.name.clone()?,
            cookie: self.cookie,
        })
    }
}

/// `READDIR3resok` (RFC 1813, section 3.3.16).
#[derive(Drop)]
pub struct ReadDirSuccess {
    /// Of the directory.
    pub attributes: Optional<FileAttributes>,
    /// `cookieverf`: goes with the cookies of the entries.
    pub verifier: Verifier,
    /// `entries` of `dirlist3`, in the order of the reply.
    pub entries: ItemList<DirectoryEntry>,
    /// `eof` of `dirlist3`: whether the list reaches the end of the directory.
    pub eof: bool,
}

impl Clone for ReadDirSuccess {
    ghost is_clone = { λ x y. y ≡ x };

    #[tactic(auto, using(crate::proofs::Copies::same_items))]
    fn clone(&self) -> Result<ReadDirSuccess, AllocError> {
        Ok(ReadDirSuccess {
            attributes: self.attributes.clone()?,
            verifier: self.verifier,
            entries: self.entries.clone()?,
            eof: self.eof,
        })
    }
}

/// An entry of a directory with its object, `entryplus3` (RFC 1813, section 3.3.17).
#[derive(Drop)]
pub struct DirectoryEntryPlus {
    /// `fileid`
    pub file_number: u64,
    /// `name`: the name in the directory.
    pub name: Name,
    /// `cookie`: asks, in a later call, for the list behind this entry.
    pub cookie: u64,
    /// `name_attributes`: those of the object.
    pub attributes: Optional<FileAttributes>,
    /// `name_handle`: the handle of the object, where the server gives it.
    pub object: Option<FileHandle>,
}

impl Clone for DirectoryEntryPlus {
    ghost is_clone = { λ x y. y ≡ x };

    fn clone(&self) -> Result<DirectoryEntryPlus, AllocError> {
        Ok(DirectoryEntryPlus {
            file_number: self.file_number,
            name: self.name.clone()?,
            cookie: self.cookie,
            attributes: self.attributes.clone()?,
            object: self.object.clone()?,
        })
    }
}

/// `READDIRPLUS3resok` (RFC 1813, section 3.3.17).
#[derive(Drop)]
pub struct ReadDirPlusSuccess {
    /// Of the directory.
    pub attributes: Optional<FileAttributes>,
    /// `cookieverf`: goes with the cookies of the entries.
    pub verifier: Verifier,
    /// `entries` of `dirlistplus3`, in the order of the reply.
    pub entries: ItemList<DirectoryEntryPlus>,
    /// `eof` of `dirlistplus3`: whether the list reaches the end of the directory.
    pub eof: bool,
}

impl Clone for ReadDirPlusSuccess {
    ghost is_clone = { λ x y. y ≡ x };

    #[tactic(auto, using(crate::proofs::Copies::same_items))]
    fn clone(&self) -> Result<ReadDirPlusSuccess, AllocError> {
        Ok(ReadDirPlusSuccess {
            attributes: self.attributes.clone()?,
            verifier: self.verifier,
            entries: self.entries.clone()?,
            eof: self.eof,
        })
    }
}

/// `COMMIT3resok` (RFC 1813, section 3.3.21).
#[derive(Clone, Drop)]
pub struct CommitSuccess {
    /// `file_wcc`: of the file.
    pub wcc: WccData,
    /// `verf` (`writeverf3`): another one than before tells that unstable writes may be lost.
    pub verifier: Verifier,
}

/// The result of a judged procedure, which it names.
#[derive(Clone)]
pub enum NfsReply {
    /// `NFSPROC3_GETATTR`, procedure 1: the object's attributes; with a failure nothing.
    GetAttr(Answer<Held<FileAttributes>, ()>),
    /// `NFSPROC3_SETATTR`, procedure 2: `obj_wcc` of the object, done or failed.
    SetAttr(Answer<WccData, WccData>),
    /// `NFSPROC3_LOOKUP`, procedure 3: the handle of the object; with a failure `dir_attributes`, those of the directory.
    Lookup(Answer<Held<LookupSuccess>, Optional<FileAttributes>>),
    /// `NFSPROC3_READLINK`, procedure 5: the text of the link; with a failure `symlink_attributes`, those of the link.
    ReadLink(Answer<ReadLinkSuccess, Optional<FileAttributes>>),
    /// `NFSPROC3_READ`, procedure 6: bytes of the file; with a failure `file_attributes`, those of the file.
    Read(Answer<ReadSuccess, Optional<FileAttributes>>),
    /// `NFSPROC3_WRITE`, procedure 7: how much was written, and how firmly; with a failure `file_wcc` of the file.
    Write(Answer<WriteSuccess, WccData>),
    /// `NFSPROC3_CREATE`, procedure 8: the file that was made; with a failure `dir_wcc` of the directory.
    Create(Answer<Held<CreateSuccess>, WccData>),
    /// `NFSPROC3_MKDIR`, procedure 9: the directory that was made; with a failure `dir_wcc` of the one around it.
    MkDir(Answer<Held<CreateSuccess>, WccData>),
    /// `NFSPROC3_SYMLINK`, procedure 10: the link that was made; with a failure `dir_wcc` of the directory.
    SymLink(Answer<Held<CreateSuccess>, WccData>),
    /// `NFSPROC3_REMOVE`, procedure 12: `dir_wcc` of the directory, done or failed.
    Remove(Answer<WccData, WccData>),
    /// `NFSPROC3_RMDIR`, procedure 13: `dir_wcc` of the directory around the removed one, done or failed.
    RmDir(Answer<WccData, WccData>),
    /// `NFSPROC3_RENAME`, procedure 14: `fromdir_wcc` and `todir_wcc` of the two directories, done or failed.
    Rename(Answer<Held<RenameWcc>, Held<RenameWcc>>),
    /// `NFSPROC3_READDIR`, procedure 16: a list of names; with a failure `dir_attributes`, those of the directory.
    ReadDir(Answer<Held<ReadDirSuccess>, Optional<FileAttributes>>),
    /// `NFSPROC3_READDIRPLUS`, procedure 17: a list with attributes and handles; with a failure `dir_attributes`.
    ReadDirPlus(Answer<Held<ReadDirPlusSuccess>, Optional<FileAttributes>>),
    /// `NFSPROC3_COMMIT`, procedure 21: the write verifier; with a failure only `file_wcc` of the file.
    Commit(Answer<CommitSuccess, WccData>),
}

// Written out, it is proved here alone; a derived one is proved in each crate that drops a message.
impl Drop for NfsReply {
    fn drop(self) {
        match self {
            NfsReply::GetAttr(answer) => drop(answer),
            NfsReply::SetAttr(answer) => drop(answer),
            NfsReply::Lookup(answer) => drop(answer),
            NfsReply::ReadLink(answer) => drop(answer),
            NfsReply::Read(answer) => drop(answer),
            NfsReply::Write(answer) => drop(answer),
            NfsReply::Create(answer) => drop(answer),
            NfsReply::MkDir(answer) => drop(answer),
            NfsReply::SymLink(answer) => drop(answer),
            NfsReply::Remove(answer) => drop(answer),
            NfsReply::RmDir(answer) => drop(answer),
            NfsReply::Rename(answer) => drop(answer),
            NfsReply::ReadDir(answer) => drop(answer),
            NfsReply::ReadDirPlus(answer) => drop(answer),
            NfsReply::Commit(answer) => drop(answer),
        }
    }
}

impl NfsReply {
    /// A second reply with the same values.
    pub fn copy(&self) -> Result<NfsReply, AllocError>
        ensures { IfOk result (λ reply. reply ≡ self.now) }
    {
        NfsReply::clone(self)
    }
}

/// How a placed call came out: with the reply that was received, or taken as done though no reply came (a
/// WRITE with its count of bytes written).
#[derive(Clone)]
pub enum Outcome {
    /// This reply came.
    Received(NfsReply),
    /// No reply came, and the call is taken as done: of a WRITE with the count of bytes written.
    Taken(Option<u32>),
}

impl Drop for Outcome {
    fn drop(self) {
        match self {
            Outcome::Received(reply) => drop(reply),
            Outcome::Taken(_) => {}
        }
    }
}

impl Outcome {
    /// A second outcome with the same values.
    pub fn copy(&self) -> Result<Outcome, AllocError>
        ensures { IfOk result (λ outcome. outcome ≡ self.now) }
    {
        self.clone()
    }
}
