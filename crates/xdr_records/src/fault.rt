//! Why an item could not be read, or bytes of a stream not taken.

ghost use Rattle.std.specs.Prelude.{◌≡◌};
ghost use Rattle.xdr_records.specs.declared.fault.FeedFault.TheVariants.{NoMemory};

use std::alloc::AllocError;
use std::fmt;
use thiserror::Error;

/// What is wrong with an item of external data representation.
#[derive(Clone, Copy, Debug, Error)]
pub enum XdrFault {
    /// Bytes of the item are missing.
    Short,
    /// A flag is neither 0 nor 1.
    BadFlag,
    /// A length is over its limit.
    TooLong,
    /// Bytes stand behind the last item.
    Trailing,
}

impl fmt::Display for XdrFault {
    ghost use Rattle.std.specs.Prelude.{Some};
    ghost use Rattle.xdr_records.specs.FaultText.{xdr_fault_words};

    ghost output = { λ fault. Some (xdr_fault_words fault) };

    fn fmt<W: fmt::Write>(&self, f: &mut fmt::Formatter<W>) -> fmt::Result {
        match self {
            XdrFault::Short => f.write_str("bytes are missing"),
            XdrFault::BadFlag => f.write_str("a flag is neither 0 nor 1"),
            XdrFault::TooLong => f.write_str("a length is over its limit"),
            XdrFault::Trailing => f.write_str("bytes stand behind the last item"),
        }
    }
}

/// Why bytes of a stream were not taken.
#[derive(Clone, Copy, PartialEq, Eq, Debug, Error)]
pub enum FeedFault {
    /// A header takes its record past [`RECORD_LIMIT`](crate::RECORD_LIMIT).
    RecordTooLong,
    /// A growth was refused.
    NoMemory,
}

impl fmt::Display for FeedFault {
    ghost use Rattle.std.specs.Prelude.{Some};
    ghost use Rattle.xdr_records.specs.FaultText.{feed_fault_words};

    ghost output = { λ fault. Some (feed_fault_words fault) };

    fn fmt<W: fmt::Write>(&self, f: &mut fmt::Formatter<W>) -> fmt::Result {
        match self {
            FeedFault::RecordTooLong => f.write_str("a record is over its limit"),
            FeedFault::NoMemory => f.write_str("out of memory"),
        }
    }
}

impl From<AllocError> for FeedFault {
    ghost from_gives = { λ _ fault. fault ≡ NoMemory };

    fn from(_error: AllocError) -> FeedFault {
        FeedFault::NoMemory
    }
}
