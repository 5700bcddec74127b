//! Attributes of files, before and after an operation, and as a call asks for them.

ghost use Rattle.std.specs.Prelude.{◌≡◌};
ghost use Rattle.nfs3_types.specs.Numbers.{type_number};

use crate::held::Optional;

/// What kind of object a handle names, `ftype3` (RFC 1813, section 2.6).
#[derive(Clone, Copy, PartialEq, Eq)]
pub enum FileType {
    /// `NF3REG`, 1: a regular file.
    Regular = 1,
    /// `NF3DIR`, 2: a directory.
    Directory = 2,
    /// `NF3BLK`, 3: a block special device file.
    BlockDevice = 3,
    /// `NF3CHR`, 4: a character special device file.
    CharacterDevice = 4,
    /// `NF3LNK`, 5: a symbolic link.
    SymbolicLink = 5,
    /// `NF3SOCK`, 6: a socket.
    Socket = 6,
    /// `NF3FIFO`, 7: a named pipe.
    Fifo = 7,
}

impl FileType {
    /// Its number.
    pub fn number(self) -> u32
        ensures { result ≡ type_number self }
    {
        self as u32
    }
}

/// A moment since the first of January 1970, `nfstime3`.
#[derive(Clone, Copy)]
pub struct Time {
    /// Whole seconds.
    pub seconds: u32,
    /// `nseconds`: nanoseconds behind the whole seconds. That they are fewer than 1,000,000,000 isn't checked.
    pub nanoseconds: u32,
}

/// The two numbers of a device, `specdata3`.
#[derive(Clone, Copy)]
pub struct Device {
    /// `specdata1`: the major number of a device.
    pub major: u32,
    /// `specdata2`: the minor number of a device.
    pub minor: u32,
}

/// Eight bytes that only their maker understands (`writeverf3`, `createverf3`), as the number that they
/// spell in big-endian order.
#[derive(Clone, Copy, PartialEq, Eq)]
pub struct Verifier {
    /// The number that the eight bytes spell, the highest byte first.
    pub value: u64,
}

/// The attributes of an object, `fattr3`.
#[derive(Clone, Copy)]
pub struct FileAttributes {
    /// `type`
    pub file_type: FileType,
    /// `mode`: the protection bits (`mode3`).
    pub mode: u32,
    /// `nlink`
    pub link_count: u32,
    /// `uid`
    pub user: u32,
    /// `gid`
    pub group: u32,
    /// Bytes.
    pub size: u64,
    /// Bytes of disk space.
    pub used: u64,
    /// `rdev`
    pub device: Device,
    /// `fsid`
    pub file_system: u64,
    /// `fileid`
    pub file_number: u64,
    /// `atime`
    pub access_time: Time,
    /// `mtime`
    pub modify_time: Time,
    /// `ctime`
    pub change_time: Time,
}

/// The attributes that tell whether an object has changed, `wcc_attr`.
#[derive(Clone, Copy)]
pub struct WccAttributes {
    /// Bytes.
    pub size: u64,
    /// `mtime`
    pub modify_time: Time,
    /// `ctime`
    pub change_time: Time,
}

/// Attributes before and after an operation, `wcc_data` (weak cache consistency).
#[derive(Clone, Drop)]
pub struct WccData {
    /// `before` (`pre_op_attr`): absent where the server doesn't give it.
    pub before: Optional<WccAttributes>,
    /// `after` (`post_op_attr`): absent where the server doesn't give it.
    pub after: Optional<FileAttributes>,
}

/// How a call sets a time, `set_atime` and `set_mtime`.
#[derive(Clone, Copy)]
pub enum SetTime {
    /// `DONT_CHANGE`, 0: the time stays.
    Keep,
    /// `SET_TO_SERVER_TIME`, 1: the time becomes the server's.
    ServerTime,
    /// `SET_TO_CLIENT_TIME`, 2: the time becomes this one.
    ClientTime(Time),
}

/// The attributes that a call sets, `sattr3`: those that are absent stay.
#[derive(Clone, Copy)]
pub struct SetAttributes {
    /// `mode`: the protection bits (`mode3`).
    pub mode: Option<u32>,
    /// `uid`
    pub user: Option<u32>,
    /// `gid`
    pub group: Option<u32>,
    /// Bytes.
    pub size: Option<u64>,
    /// `atime`
    pub access_time: SetTime,
    /// `mtime`
    pub modify_time: SetTime,
}
