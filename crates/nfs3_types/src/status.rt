//! The statuses of a reply that is no success.

ghost use Rattle.std.specs.Prelude.{◌≡◌};
ghost use Rattle.nfs3_types.specs.Numbers.{failure_of, status_number};

/// A status other than `NFS3_OK`, with its number in `nfsstat3` (RFC 1813, section 2.6).
#[derive(Clone, Copy, PartialEq, Eq)]
pub enum Failure {
    /// `NFS3ERR_PERM`, 1: the caller isn't the owner.
    NotOwner = 1,
    /// `NFS3ERR_NOENT`, 2: there is no such file or directory.
    NoEntry = 2,
    /// `NFS3ERR_IO`, 5: a hard error, such as that of a disk, came up.
    InputOutput = 5,
    /// `NFS3ERR_NXIO`, 6: there is no such device or address.
    NoDevice = 6,
    /// `NFS3ERR_ACCES`, 13: the caller hasn't the permission.
    Access = 13,
    /// `NFS3ERR_EXIST`, 17: the name is present already.
    Exists = 17,
    /// `NFS3ERR_XDEV`, 18: a hard link would lead to another device.
    CrossDevice = 18,
    /// `NFS3ERR_NODEV`, 19: there is no such device.
    NoSuchDevice = 19,
    /// `NFS3ERR_NOTDIR`, 20: what has to be a directory is none.
    NotDirectory = 20,
    /// `NFS3ERR_ISDIR`, 21: what has to be no directory is one.
    IsDirectory = 21,
    /// `NFS3ERR_INVAL`, 22: an argument is invalid, or isn't supported for the operation.
    Invalid = 22,
    /// `NFS3ERR_FBIG`, 27: a file would grow beyond the server's limit.
    FileTooLarge = 27,
    /// `NFS3ERR_NOSPC`, 28: no space is left on the file system.
    NoSpace = 28,
    /// `NFS3ERR_ROFS`, 30: the file system is read-only, and the call would change it.
    ReadOnly = 30,
    /// `NFS3ERR_MLINK`, 31: there are too many hard links.
    TooManyLinks = 31,
    /// `NFS3ERR_NAMETOOLONG`, 63: a name is too long.
    NameTooLong = 63,
    /// `NFS3ERR_NOTEMPTY`, 66: a directory that would be removed isn't empty.
    NotEmpty = 66,
    /// `NFS3ERR_DQUOT`, 69: the user's quota is used up.
    Quota = 69,
    /// `NFS3ERR_STALE`, 70: what the handle named is gone, or access to it was taken away.
    Stale = 70,
    /// `NFS3ERR_REMOTE`, 71: the handle names a file on a file system that isn't local to the server.
    Remote = 71,
    /// `NFS3ERR_BADHANDLE`, 10001: the handle fails the server's own checks of its form.
    BadHandle = 10001,
    /// `NFS3ERR_NOT_SYNC`, 10002: the guard of a SETATTR isn't the object's `ctime`.
    NotSynchronized = 10002,
    /// `NFS3ERR_BAD_COOKIE`, 10003: the cookie of a READDIR or a READDIRPLUS is stale.
    BadCookie = 10003,
    /// `NFS3ERR_NOTSUPP`, 10004: the server doesn't support the operation.
    NotSupported = 10004,
    /// `NFS3ERR_TOOSMALL`, 10005: a buffer or a request is too small.
    TooSmall = 10005,
    /// `NFS3ERR_SERVERFAULT`, 10006: an error of the server that no other status fits.
    ServerFault = 10006,
    /// `NFS3ERR_BADTYPE`, 10007: the server doesn't support objects of the type that would be made.
    BadType = 10007,
    /// `NFS3ERR_JUKEBOX`, 10008: the server needs more time; the client has to try again later.
    Jukebox = 10008,
}

impl Failure {
    /// Its number.
    pub fn number(self) -> u32
        ensures { result ≡ status_number self }
    {
        self as u32
    }

    /// The failure whose status has this number.
    #[tactic(auto, unfolding(crate::specs::Numbers::failure_of))]
    pub fn from_number(word: u32) -> Option<Failure>
        ensures { result ≡ failure_of word }
    {
        Some(match word {
            1 => Failure::NotOwner,
            2 => Failure::NoEntry,
            5 => Failure::InputOutput,
            6 => Failure::NoDevice,
            13 => Failure::Access,
            17 => Failure::Exists,
            18 => Failure::CrossDevice,
            19 => Failure::NoSuchDevice,
            20 => Failure::NotDirectory,
            21 => Failure::IsDirectory,
            22 => Failure::Invalid,
            27 => Failure::FileTooLarge,
            28 => Failure::NoSpace,
            30 => Failure::ReadOnly,
            31 => Failure::TooManyLinks,
            63 => Failure::NameTooLong,
            66 => Failure::NotEmpty,
            69 => Failure::Quota,
            70 => Failure::Stale,
            71 => Failure::Remote,
            10001 => Failure::BadHandle,
            10002 => Failure::NotSynchronized,
            10003 => Failure::BadCookie,
            10004 => Failure::NotSupported,
            10005 => Failure::TooSmall,
            10006 => Failure::ServerFault,
            10007 => Failure::BadType,
            10008 => Failure::Jukebox,
            _ => return None,
        })
    }
}
