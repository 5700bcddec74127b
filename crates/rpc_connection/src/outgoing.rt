//! The bytes that are still to be sent.

ghost use Rattle.std.specs.Prelude.{IfOk};
ghost use Rattle.rpc_connection.specs.Sending.{Sends};

use crate::fault::ConnectionFault;
use std::io::{ErrorKind, Write};

/// Writes once, and gives the bytes that are still to be sent.
pub(crate) fn send<'a, W: Write>(
    writer: &mut W,
    bytes: &'a [u8],
) -> Result<&'a [u8], ConnectionFault>
    ensures { IfOk result (λ left. Sends bytes.now left.now (W.contents writer.old) (W.contents writer.new)) }
{
    match writer.write(bytes) {
        Ok(0) => Err(ConnectionFault::Ended),
        Ok(count) => Ok(&bytes[count..]),
        Err(error) => match error.kind() {
            ErrorKind::Interrupted | ErrorKind::WouldBlock | ErrorKind::TimedOut => Ok(bytes),
            _ => Err(ConnectionFault::Ended),
        },
    }
}
