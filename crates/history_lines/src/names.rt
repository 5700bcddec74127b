//! The names that the RFCs give procedures, statuses and the like.

use nfs3_types::{Failure, FileType, Procedure, StableHow};

/// A procedure of NFS version 3 (RFC 1813, section 3).
pub fn procedure_name(procedure: Procedure) -> &'static str {
    match procedure {
        Procedure::Null => "NULL",
        Procedure::GetAttr => "GETATTR",
        Procedure::SetAttr => "SETATTR",
        Procedure::Lookup => "LOOKUP",
        Procedure::Access => "ACCESS",
        Procedure::ReadLink => "READLINK",
        Procedure::Read => "READ",
        Procedure::Write => "WRITE",
        Procedure::Create => "CREATE",
        Procedure::MkDir => "MKDIR",
        Procedure::SymLink => "SYMLINK",
        Procedure::MkNod => "MKNOD",
        Procedure::Remove => "REMOVE",
        Procedure::RmDir => "RMDIR",
        Procedure::Rename => "RENAME",
        Procedure::Link => "LINK",
        Procedure::ReadDir => "READDIR",
        Procedure::ReadDirPlus => "READDIRPLUS",
        Procedure::FsStat => "FSSTAT",
        Procedure::FsInfo => "FSINFO",
        Procedure::PathConf => "PATHCONF",
        Procedure::Commit => "COMMIT",
    }
}

/// A status that is no success, of `nfsstat3` (RFC 1813, section 2.6).
fn failure_name(failure: Failure) -> &'static str {
    match failure {
        Failure::NotOwner => "NFS3ERR_PERM",
        Failure::NoEntry => "NFS3ERR_NOENT",
        Failure::InputOutput => "NFS3ERR_IO",
        Failure::NoDevice => "NFS3ERR_NXIO",
        Failure::Access => "NFS3ERR_ACCES",
        Failure::Exists => "NFS3ERR_EXIST",
        Failure::CrossDevice => "NFS3ERR_XDEV",
        Failure::NoSuchDevice => "NFS3ERR_NODEV",
        Failure::NotDirectory => "NFS3ERR_NOTDIR",
        Failure::IsDirectory => "NFS3ERR_ISDIR",
        Failure::Invalid => "NFS3ERR_INVAL",
        Failure::FileTooLarge => "NFS3ERR_FBIG",
        Failure::NoSpace => "NFS3ERR_NOSPC",
        Failure::ReadOnly => "NFS3ERR_ROFS",
        Failure::TooManyLinks => "NFS3ERR_MLINK",
        Failure::NameTooLong => "NFS3ERR_NAMETOOLONG",
        Failure::NotEmpty => "NFS3ERR_NOTEMPTY",
        Failure::Quota => "NFS3ERR_DQUOT",
        Failure::Stale => "NFS3ERR_STALE",
        Failure::Remote => "NFS3ERR_REMOTE",
        Failure::BadHandle => "NFS3ERR_BADHANDLE",
        Failure::NotSynchronized => "NFS3ERR_NOT_SYNC",
        Failure::BadCookie => "NFS3ERR_BAD_COOKIE",
        Failure::NotSupported => "NFS3ERR_NOTSUPP",
        Failure::TooSmall => "NFS3ERR_TOOSMALL",
        Failure::ServerFault => "NFS3ERR_SERVERFAULT",
        Failure::BadType => "NFS3ERR_BADTYPE",
        Failure::Jukebox => "NFS3ERR_JUKEBOX",
    }
}

/// A status, `nfsstat3` (RFC 1813, section 2.6).
pub fn status_name(number: u32) -> Option<&'static str> {
    if number == 0 {
        return Some("NFS3_OK");
    }
    let failure = Failure::from_number(number)?;
    Some(failure_name(failure))
}

/// Why a caller isn't believed, `auth_stat` (RFC 5531, section 9).
pub fn refusal_name(number: u32) -> Option<&'static str> {
    Some(match number {
        0 => "AUTH_OK",
        1 => "AUTH_BADCRED",
        2 => "AUTH_REJECTEDCRED",
        3 => "AUTH_BADVERF",
        4 => "AUTH_REJECTEDVERF",
        5 => "AUTH_TOOWEAK",
        6 => "AUTH_INVALIDRESP",
        7 => "AUTH_FAILED",
        8 => "AUTH_KERB_GENERIC",
        9 => "AUTH_TIMEEXPIRE",
        10 => "AUTH_TKT_FILE",
        11 => "AUTH_DECODE",
        12 => "AUTH_NET_ADDR",
        13 => "RPCSEC_GSS_CREDPROBLEM",
        14 => "RPCSEC_GSS_CTXPROBLEM",
        _ => return None,
    })
}

/// How far a WRITE has come, `stable_how` (RFC 1813, section 3.3.7).
pub fn level_name(level: StableHow) -> &'static str {
    match level {
        StableHow::Unstable => "UNSTABLE",
        StableHow::DataSync => "DATA_SYNC",
        StableHow::FileSync => "FILE_SYNC",
    }
}

/// The type of an object, `ftype3` (RFC 1813, section 2.6).
pub fn type_name(file_type: FileType) -> &'static str {
    match file_type {
        FileType::Regular => "NF3REG",
        FileType::Directory => "NF3DIR",
        FileType::BlockDevice => "NF3BLK",
        FileType::CharacterDevice => "NF3CHR",
        FileType::SymbolicLink => "NF3LNK",
        FileType::Socket => "NF3SOCK",
        FileType::Fifo => "NF3FIFO",
    }
}
