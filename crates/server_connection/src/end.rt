//! How a stream ended.

use journal_server::CallFault;
use std::alloc::AllocError;
use std::fmt;

/// How the serving of a stream ended.
#[derive(Clone, Copy, PartialEq, Eq)]
pub enum StreamEnd {
    /// The stream ended. A record of which only a part came is dropped.
    End,
    /// As many records were answered as may be, or the stream didn't end within 1,000,000 reads.
    Bound,
    /// A history's file has no room for the next record and a reply. The record isn't answered.
    Full,
    /// A read failed. The records that came whole are answered.
    ReadFault,
    /// A write failed, or a reply is longer than 2,097,152 bytes, of which nothing is written. Its call is noted in the pass.
    WriteFault,
    /// A header takes its record past the limit of 2,097,152 bytes. The records ahead of it are answered.
    RecordTooLong,
    /// The server gave a record no reply. The fault is never `NoMemory`.
    Refused(CallFault),
    /// A growth was refused, by the server too. The last call that is noted in the pass may have no byte of its reply
    /// written.
    NoMemory,
}

impl fmt::Display for StreamEnd {
    fn fmt<W: fmt::Write>(&self, f: &mut fmt::Formatter<W>) -> fmt::Result {
        match self {
            StreamEnd::End => f.write_str("End"),
            StreamEnd::Bound => f.write_str("Bound"),
            StreamEnd::Full => f.write_str("Full"),
            StreamEnd::ReadFault => f.write_str("ReadFault"),
            StreamEnd::WriteFault => f.write_str("WriteFault"),
            StreamEnd::RecordTooLong => f.write_str("RecordTooLong"),
            StreamEnd::Refused(fault) => write!(f, "Refused {fault}"),
            StreamEnd::NoMemory => f.write_str("out of memory"),
        }
    }
}

impl From<CallFault> for StreamEnd {
    ghost use Rattle.std.specs.Prelude.{◌≡◌};
    ghost use Rattle.server_connection.specs.Steps.{end_of};

    ghost from_gives = { λ fault end. end ≡ end_of fault };

    fn from(fault: CallFault) -> StreamEnd {
        match fault {
            CallFault::NoMemory => StreamEnd::NoMemory,
            fault => StreamEnd::Refused(fault),
        }
    }
}

impl From<AllocError> for StreamEnd {
    ghost use Rattle.std.specs.Prelude.{◌≡◌};
    ghost use Rattle.server_connection.specs.declared.end.StreamEnd.TheVariants.{NoMemory};

    ghost from_gives = { λ _ end. end ≡ NoMemory };

    fn from(_error: AllocError) -> StreamEnd {
        StreamEnd::NoMemory
    }
}
