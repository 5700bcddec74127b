//! The bytes that come.

ghost use Rattle.rpc_connection.specs.Receiving.{Receives};

use crate::fault::ConnectionFault;
use std::io::{ErrorKind, Read};
use xdr_records::{FeedFault, RecordFeed};

/// Reads once, and feeds what came, of which it may be that it is nothing as yet.
pub(crate) fn receive<I: Read>(
    reader: &mut I,
    buffer: &mut [u8],
    feed: &mut RecordFeed,
) -> Result<(), ConnectionFault>
    ensures { Receives result feed.old feed.new (I.remaining reader.old) (I.remaining reader.new) }
{
    match reader.read(buffer) {
        Ok(0) => Err(ConnectionFault::Ended),
        Ok(count) => match feed.feed(&buffer[..count]) {
            Ok(()) => Ok(()),
            Err(FeedFault::RecordTooLong) => Err(ConnectionFault::RecordTooLong),
            Err(FeedFault::NoMemory) => Err(ConnectionFault::NoMemory),
        },
        Err(error) => match error.kind() {
            ErrorKind::Interrupted | ErrorKind::WouldBlock | ErrorKind::TimedOut => Ok(()),
            _ => Err(ConnectionFault::Ended),
        },
    }
}
