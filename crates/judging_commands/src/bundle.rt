//! A bundle: a history in lower case hex, a line feed, and a certificate's text.

ghost use Rattle.std.specs.Prelude.{◌≡◌, ◌<◌, ◌==◌, IfOk, IfSome, position, length};
ghost use Rattle.judging_commands.specs.Bundle.{IsBundle, IsSomeBundle};

use memchr::memchr;
use program_streams::{DigitsFault, decode_digits};
use std::alloc::Global;

/// Why there is no bundle.
#[derive(Clone, Copy)]
pub(crate) enum BundleFault {
    /// The bytes are no bundle.
    Malformed,
    NoMemory,
}

/// The bytes of a history, and the text of a certificate.
#[derive(Drop)]
pub(crate) struct Bundle<'a> {
    pub(crate) history: Vec<u8>,
    pub(crate) certificate: &'a [u8],
}

/// Where the first line ends.
fn first_line_feed(bytes: &[u8]) -> Option<usize>
    ensures first { result ≡ position (λ byte. byte == 10) bytes.now }
    ensures within { IfSome result (λ end. end < length bytes.now) }
{
    memchr(b'\n', bytes)
}

/// The bundle that the bytes are.
pub(crate) fn read_bundle<'a>(alloc: Global, bytes: &'a [u8]) -> Result<Bundle<'a>, BundleFault>
    ensures ok { IfOk result (λ bundle. IsBundle bytes.now bundle.history.items bundle.certificate.now) }
    ensures malformed { result ≡ Err BundleFault.Malformed → ¬ (IsSomeBundle bytes.now) }
{
    let Some(end) = first_line_feed(bytes) else {
        return Err(BundleFault::Malformed);
    };
    match decode_digits(alloc, &bytes[..end]) {
        Ok(history) => Ok(Bundle {
            history,
            certificate: &bytes[end + 1..],
        }),
        Err(DigitsFault::Malformed) => Err(BundleFault::Malformed),
        Err(DigitsFault::NoMemory) => Err(BundleFault::NoMemory),
    }
}
