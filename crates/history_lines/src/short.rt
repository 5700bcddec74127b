//! A short form of a handle, for whoever reads.

ghost use Rattle.std.specs.Prelude.{◌≡◌, take};
ghost use Rattle.sha2.specs.Sha256.{sha256};

use sha2::{Digest, Sha256};

/// Six bytes that stand for a handle: the first of its SHA-256 digest (FIPS 180-4). Of a million handles two have the same in one of some
/// five hundred histories.
#[derive(Clone, Copy, PartialEq, Eq)]
pub struct ShortHandle {
    bytes: [u8; 6],
}

impl ShortHandle {
    /// The short form that has these bytes.
    pub fn of_bytes(bytes: [u8; 6]) -> ShortHandle
        ensures { result.bytes ≡ bytes }
    {
        ShortHandle { bytes }
    }

    /// Its bytes, which are written in hexadecimal, after `#`.
    pub fn bytes(self) -> [u8; 6]
        ensures { result ≡ self.bytes }
    {
        self.bytes
    }
}

/// The short form of a handle.
pub fn short_of(handle: &[u8]) -> ShortHandle
    ensures { result.bytes ≡ take 6 (sha256 handle.now) }
{
    let [a, b, c, d, e, f, ..] = Sha256::digest(handle);
    ShortHandle {
        bytes: [a, b, c, d, e, f],
    }
}
