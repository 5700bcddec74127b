//! Why a server doesn't mount.

ghost use Rattle.std.specs.Prelude.{◌≡◌};
ghost use Rattle.mount_client.specs.Statuses.{status_named};

/// A status of MNT that is no success, `mountstat3` (RFC 1813, section 5.1.5).
#[derive(Clone, Copy, PartialEq, Eq)]
pub enum MountStatus {
    /// `MNT3ERR_PERM`, 1
    NotOwner,
    /// `MNT3ERR_NOENT`, 2
    NoEntry,
    /// `MNT3ERR_IO`, 5
    InputOutput,
    /// `MNT3ERR_ACCES`, 13
    Access,
    /// `MNT3ERR_NOTDIR`, 20
    NotDirectory,
    /// `MNT3ERR_INVAL`, 22
    Invalid,
    /// `MNT3ERR_NAMETOOLONG`, 63
    NameTooLong,
    /// `MNT3ERR_NOTSUPP`, 10004
    NotSupported,
    /// `MNT3ERR_SERVERFAULT`, 10006
    ServerFault,
    /// A number that RFC 1813 doesn't have.
    Other(u32),
}

impl MountStatus {
    /// The status of a number.
    pub(crate) fn named(number: u32) -> MountStatus
        ensures { result ≡ status_named number }
    {
        match number {
            1 => MountStatus::NotOwner,
            2 => MountStatus::NoEntry,
            5 => MountStatus::InputOutput,
            13 => MountStatus::Access,
            20 => MountStatus::NotDirectory,
            22 => MountStatus::Invalid,
            63 => MountStatus::NameTooLong,
            10_004 => MountStatus::NotSupported,
            10_006 => MountStatus::ServerFault,
            other => MountStatus::Other(other),
        }
    }
}
