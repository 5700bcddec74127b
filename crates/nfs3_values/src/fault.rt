//! Why a message could not be read.

ghost use Rattle.std.specs.Prelude.{◌≡◌};
ghost use Rattle.nfs3_values.specs.declared.fault.MessageFault.TheVariants.{NoMemory};

use std::alloc::{AllocError, AllocFailed};
use std::fmt;
use thiserror::Error;

/// What is wrong with an item of a message.
#[derive(Clone, Copy, Debug, PartialEq, Eq, Error)]
pub enum Kind {
    /// Bytes of the item are missing.
    Short,
    /// A flag is neither 0 nor 1.
    BadFlag,
    /// A length is over its limit.
    TooLong,
    /// Bytes stand behind the last item.
    Trailing,
    /// A status, type, level, mode or time word is outside its list.
    BadEnum,
    /// The procedure's messages are not read.
    NotJudged,
}

impl fmt::Display for Kind {
    ghost use Rattle.std.specs.Prelude.{Some};
    ghost use Rattle.nfs3_values.specs.FaultText.{kind_words};

    ghost output = { λ fault. Some (kind_words fault) };

    fn fmt<W: fmt::Write>(&self, f: &mut fmt::Formatter<W>) -> fmt::Result {
        match self {
            Kind::Short => f.write_str("bytes are missing"),
            Kind::BadFlag => f.write_str("a flag is neither 0 nor 1"),
            Kind::TooLong => f.write_str("a length is over its limit"),
            Kind::Trailing => f.write_str("bytes stand behind the last item"),
            Kind::BadEnum => f.write_str("a word is outside its list"),
            Kind::NotJudged => f.write_str("the procedure is not judged"),
        }
    }
}

/// Why a message gave no value.
#[derive(Clone, Copy, Debug, Error)]
pub enum MessageFault {
    /// The first item at fault, and the offset at which it stands.
    BadMessage {
        /// Bytes before the item.
        at: usize,
        /// What is wrong with it.
        kind: Kind,
    },
    /// A growth was refused.
    NoMemory,
}

impl fmt::Display for MessageFault {
    ghost use Rattle.std.specs.Prelude.{Some};
    ghost use Rattle.nfs3_values.specs.FaultText.{message_fault_words};

    ghost output = { λ fault. Some (message_fault_words fault) };

    fn fmt<W: fmt::Write>(&self, f: &mut fmt::Formatter<W>) -> fmt::Result {
        match self {
            MessageFault::BadMessage { at, kind } => write!(f, "at byte {at}: {kind}"),
            MessageFault::NoMemory => f.write_str("out of memory"),
        }
    }
}

impl From<AllocError> for MessageFault {
    ghost from_gives = { λ _ fault. fault ≡ NoMemory };

    fn from(_error: AllocError) -> MessageFault {
        MessageFault::NoMemory
    }
}

impl<T: Drop> From<AllocFailed<T>> for MessageFault {
    ghost from_gives = { λ _ fault. fault ≡ NoMemory };

    fn from(_error: AllocFailed<T>) -> MessageFault {
        MessageFault::NoMemory
    }
}
