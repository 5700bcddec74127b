//! Fingerprints of bytes.
ghost use Rattle.std.specs.Prelude.{◌≡◌};
ghost use Rattle.seen_states.specs.Fingerprint.{fingerprint_of};

use sha2::{Digest, Sha256};

/// The first eight bytes of the SHA-256 digest (FIPS 180-4) as a number in big-endian order; it is never 0.
pub fn fingerprint(bytes: &[u8]) -> u64
    ensures { result ≡ fingerprint_of bytes.now }
{
    let digest = Sha256::digest(bytes);
    let [a, b, c, d, e, f, g, h, ..] = digest;
    let number = u64::from_be_bytes([a, b, c, d, e, f, g, h]);
    if number == 0 { 1 } else { number }
}
