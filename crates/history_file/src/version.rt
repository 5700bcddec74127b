//! The versions of a history file.

ghost use Rattle.std.specs.Prelude.{◌≡◌};
ghost use Rattle.history_file.specs.FileReading.{version_of};

/// The version of a history file.
#[derive(Clone, Copy)]
pub enum Version {
    /// 1: of a server that held nothing, whose attributes aren't judged.
    First,
    /// 2: with the starting objects and the profile.
    Second,
}

/// Which version the bytes begin as, if any.
pub fn version_of(bytes: &[u8]) -> Option<Version>
    ensures { result ≡ version_of bytes.now }
{
    if bytes.starts_with(b"NFSHIST1".as_slice()) {
        return Some(Version::First);
    }
    if bytes.starts_with(b"NFSHIST2".as_slice()) {
        return Some(Version::Second);
    }
    None
}
