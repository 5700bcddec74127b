//! The values of NFS version 3 messages (RFC 1813): handles, names, attributes, statuses, and the calls and
//! replies that are made of them. How they stand in bytes is the matter of `nfs3_values` and `nfs3_msgs`.
#![tactic(auto)]

mod attributes;
mod bytes;
mod calls;
mod held;
mod item_list;
mod procedures;
mod replies;
mod short;
mod status;

pub use attributes::{
    Device, FileAttributes, FileType, SetAttributes, SetTime, Time, Verifier, WccAttributes,
    WccData,
};
pub use bytes::{Data, FILE_LIMIT, FileHandle, HANDLE_LIMIT, LinkText, Name, TRANSFER_LIMIT};
pub use calls::{
    CommitArguments, CreateArguments, CreateMode, DirectoryName, MkDirArguments, NfsCall,
    ReadArguments, ReadDirArguments, ReadDirPlusArguments, RenameArguments, SetAttrArguments,
    StableHow, SymLinkArguments, WriteArguments,
};
pub use held::{Held, Optional};
pub use item_list::ItemList;
pub use procedures::{NFS_PROGRAM, NFS_VERSION, Procedure};
pub use replies::{
    Answer, CommitSuccess, CreateSuccess, DirectoryEntry, DirectoryEntryPlus, LookupSuccess,
    NfsReply, Outcome, ReadDirPlusSuccess, ReadDirSuccess, ReadLinkSuccess, ReadSuccess, RenameWcc,
    WriteSuccess,
};
pub use short::ShortBytes;
pub use status::Failure;
