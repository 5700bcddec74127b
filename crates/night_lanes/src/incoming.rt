//! The bytes that come on a connection.

ghost use Rattle.std.specs.Prelude.{◌≡◌, ◌<◌, length};
ghost use Rattle.std.specs.Io.KnownBytes.{IsAtEnd};
ghost use Rattle.night_lanes.specs.Receiving.{Receives};

use std::io::{ErrorKind, Read};
use xdr_records::{FeedFault, RecordFeed};

/// What came of a connection.
#[derive(Clone, Copy)]
pub enum Arrival {
    /// A piece.
    Piece,
    /// Nothing as yet.
    Nothing,
    /// Its end.
    End,
    /// A read failed.
    ReadFault,
    /// A header that takes its record past the limit. The records before it came.
    TooLong,
    /// A piece for which there was no memory.
    NoMemory,
}

/// Reads once, and feeds what came.
pub fn receive<I: Read>(reader: &mut I, buffer: &mut [u8], feed: &mut RecordFeed) -> Arrival
    ensures received { Receives result feed.old feed.new (I.remaining reader.old) (I.remaining reader.new) }
    ensures ended { result ≡ Arrival.End → 0 < length buffer.old → IsAtEnd (I.remaining reader.new) }
{
    match reader.read(buffer) {
        Ok(0) => Arrival::End,
        Ok(count) => match feed.feed(&buffer[..count]) {
            Ok(()) => Arrival::Piece,
            Err(FeedFault::RecordTooLong) => Arrival::TooLong,
            Err(FeedFault::NoMemory) => Arrival::NoMemory,
        },
        Err(error) => match error.kind() {
            ErrorKind::Interrupted | ErrorKind::WouldBlock | ErrorKind::TimedOut => {
                Arrival::Nothing
            }
            _ => Arrival::ReadFault,
        },
    }
}
