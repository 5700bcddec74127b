//! Why bytes or events are no history.

use history_file::FileFault;
use std::alloc::{AllocError, AllocFailed};
use std::fmt;
use thiserror::Error;

/// What a history holds that lies outside the model.
#[derive(Clone, Copy, Debug, PartialEq, Eq, Error)]
pub enum Which {
    /// A LINK that may have succeeded.
    Link,
    /// A MKNOD that may have succeeded.
    Node,
    /// A WRITE whose count isn't the length of its data.
    CountDiffers,
    /// A file that would pass 16,777,216 bytes.
    TooFar,
}

impl fmt::Display for Which {
    ghost use Rattle.std.specs.Prelude.{Some};
    ghost use Rattle.nfs_history.specs.FaultText.{which_words};

    ghost output = { λ which. Some (which_words which) };

    fn fmt<W: fmt::Write>(&self, f: &mut fmt::Formatter<W>) -> fmt::Result {
        match self {
            Which::Link => f.write_str("Link"),
            Which::Node => f.write_str("Node"),
            Which::CountDiffers => f.write_str("CountDiffers"),
            Which::TooFar => f.write_str("TooFar"),
        }
    }
}

/// Why an event may not follow those before it. Events are numbered from 1.
#[derive(Clone, Copy, Debug, PartialEq, Eq, Error)]
pub enum EventFault {
    /// An event on a lane that is closed.
    LaneClosed(u64),
    /// The message of an event isn't an RPC call, or reply, as the event says.
    BadRpc(u64),
    /// A call whose transaction number has an unanswered call on its lane.
    XidInUse(u64),
    /// A reply to no unanswered call of its lane.
    NoSuchCall(u64),
}

impl fmt::Display for EventFault {
    ghost use Rattle.std.specs.Prelude.{Some};
    ghost use Rattle.nfs_history.specs.FaultText.{event_fault_words};

    ghost output = { λ fault. Some (event_fault_words fault) };

    fn fmt<W: fmt::Write>(&self, f: &mut fmt::Formatter<W>) -> fmt::Result {
        match self {
            EventFault::LaneClosed(number) => write!(f, "LaneClosed {number}"),
            EventFault::BadRpc(number) => write!(f, "BadRpc {number}"),
            EventFault::XidInUse(number) => write!(f, "XidInUse {number}"),
            EventFault::NoSuchCall(number) => write!(f, "NoSuchCall {number}"),
        }
    }
}

/// Why it isn't known what a call was. Calls are numbered from 1.
#[derive(Clone, Copy, Debug, PartialEq, Eq, Error)]
pub enum CallFault {
    /// A call with the credential flavor of RPCSEC_GSS, whose arguments can't be read.
    Sealed(u64),
    /// The arguments of a call aren't those of its procedure.
    BadArgs(u64),
    /// The result of a call isn't one of its procedure.
    BadResult(u64),
    /// A call that lies outside the model.
    Outside {
        /// The call's number.
        call: u64,
        /// What of it lies outside.
        which: Which,
    },
}

impl fmt::Display for CallFault {
    ghost use Rattle.std.specs.Prelude.{Some};
    ghost use Rattle.nfs_history.specs.FaultText.{call_fault_words};

    ghost output = { λ fault. Some (call_fault_words fault) };

    fn fmt<W: fmt::Write>(&self, f: &mut fmt::Formatter<W>) -> fmt::Result {
        match self {
            CallFault::Sealed(number) => write!(f, "Sealed {number}"),
            CallFault::BadArgs(number) => write!(f, "BadArgs {number}"),
            CallFault::BadResult(number) => write!(f, "BadResult {number}"),
            CallFault::Outside { call, which } => write!(f, "Outside {call} {which}"),
        }
    }
}

/// Why bytes are no history: the first fault, where events, calls and starting objects are numbered from 1.
#[derive(Clone, Copy, Debug, PartialEq, Eq, Error)]
pub enum HistoryFault {
    /// The file doesn't begin as one.
    BadMagic,
    /// A limit is passed: by the file, its number of events or of starting objects, a message, the root handle, or the name or the
    /// bytes of a starting object.
    TooLarge,
    /// Bytes of an item are missing.
    Truncated,
    /// The kind word of an event isn't one.
    BadEvent(u64),
    /// Bytes stand behind the last event.
    Trailing,
    /// A starting object lies in none of the directories before it, its name is empty, `.`, `..` or taken there, or its kind word
    /// isn't one.
    BadStart(u64),
    /// The profile word isn't one.
    BadProfile,
    /// An event on a lane that is closed.
    LaneClosed(u64),
    /// The message of an event isn't an RPC call, or reply, as the event says.
    BadRpc(u64),
    /// A call whose transaction number has an unanswered call on its lane.
    XidInUse(u64),
    /// A reply to no unanswered call of its lane.
    NoSuchCall(u64),
    /// A call with the credential flavor of RPCSEC_GSS, whose arguments can't be read.
    Sealed(u64),
    /// The arguments of a call aren't those of its procedure.
    BadArgs(u64),
    /// The result of a call isn't one of its procedure.
    BadResult(u64),
    /// A call that lies outside the model.
    Outside {
        /// The call's number.
        call: u64,
        /// What of it lies outside.
        which: Which,
    },
    /// Memory ran out.
    NoMemory,
}

impl fmt::Display for HistoryFault {
    ghost use Rattle.std.specs.Prelude.{Some};
    ghost use Rattle.nfs_history.specs.FaultText.{history_fault_words};

    ghost output = { λ fault. Some (history_fault_words fault) };

    fn fmt<W: fmt::Write>(&self, f: &mut fmt::Formatter<W>) -> fmt::Result {
        match self {
            HistoryFault::BadMagic => f.write_str("BadMagic"),
            HistoryFault::TooLarge => f.write_str("TooLarge"),
            HistoryFault::Truncated => f.write_str("Truncated"),
            HistoryFault::Trailing => f.write_str("Trailing"),
            HistoryFault::BadStart(number) => write!(f, "BadStart {number}"),
            HistoryFault::BadProfile => f.write_str("BadProfile"),
            HistoryFault::BadEvent(number) => write!(f, "BadEvent {number}"),
            HistoryFault::LaneClosed(number) => write!(f, "LaneClosed {number}"),
            HistoryFault::BadRpc(number) => write!(f, "BadRpc {number}"),
            HistoryFault::XidInUse(number) => write!(f, "XidInUse {number}"),
            HistoryFault::NoSuchCall(number) => write!(f, "NoSuchCall {number}"),
            HistoryFault::Sealed(number) => write!(f, "Sealed {number}"),
            HistoryFault::BadArgs(number) => write!(f, "BadArgs {number}"),
            HistoryFault::BadResult(number) => write!(f, "BadResult {number}"),
            HistoryFault::Outside { call, which } => write!(f, "Outside {call} {which}"),
            HistoryFault::NoMemory => f.write_str("out of memory"),
        }
    }
}

impl From<FileFault> for HistoryFault {
    ghost use Rattle.std.specs.Prelude.{◌≡◌};
    ghost use Rattle.nfs_history.specs.JoinedFaults.{of_file};

    ghost from_gives = { λ fault e. e ≡ of_file fault };

    fn from(fault: FileFault) -> HistoryFault {
        match fault {
            FileFault::BadMagic => HistoryFault::BadMagic,
            FileFault::TooLarge => HistoryFault::TooLarge,
            FileFault::Truncated => HistoryFault::Truncated,
            FileFault::BadEvent(number) => HistoryFault::BadEvent(number),
            FileFault::BadStart(number) => HistoryFault::BadStart(number),
            FileFault::BadProfile => HistoryFault::BadProfile,
            FileFault::Trailing => HistoryFault::Trailing,
            FileFault::NoMemory => HistoryFault::NoMemory,
        }
    }
}

impl From<EventFault> for HistoryFault {
    ghost use Rattle.std.specs.Prelude.{◌≡◌};
    ghost use Rattle.nfs_history.specs.JoinedFaults.{of_event};

    ghost from_gives = { λ fault e. e ≡ of_event fault };

    fn from(fault: EventFault) -> HistoryFault {
        match fault {
            EventFault::LaneClosed(number) => HistoryFault::LaneClosed(number),
            EventFault::BadRpc(number) => HistoryFault::BadRpc(number),
            EventFault::XidInUse(number) => HistoryFault::XidInUse(number),
            EventFault::NoSuchCall(number) => HistoryFault::NoSuchCall(number),
        }
    }
}

impl From<CallFault> for HistoryFault {
    ghost use Rattle.std.specs.Prelude.{◌≡◌};
    ghost use Rattle.nfs_history.specs.JoinedFaults.{of_call};

    ghost from_gives = { λ fault e. e ≡ of_call fault };

    fn from(fault: CallFault) -> HistoryFault {
        match fault {
            CallFault::Sealed(number) => HistoryFault::Sealed(number),
            CallFault::BadArgs(number) => HistoryFault::BadArgs(number),
            CallFault::BadResult(number) => HistoryFault::BadResult(number),
            CallFault::Outside { call, which } => HistoryFault::Outside { call, which },
        }
    }
}

impl From<AllocError> for HistoryFault {
    ghost use Rattle.std.specs.Prelude.{◌≡◌};
    ghost use Rattle.nfs_history.specs.declared.fault.HistoryFault.TheVariants.{NoMemory};

    ghost from_gives = { λ _ e. e ≡ NoMemory };

    fn from(_error: AllocError) -> HistoryFault {
        HistoryFault::NoMemory
    }
}

impl<T: Drop> From<AllocFailed<T>> for HistoryFault {
    ghost use Rattle.std.specs.Prelude.{◌≡◌};
    ghost use Rattle.nfs_history.specs.declared.fault.HistoryFault.TheVariants.{NoMemory};

    ghost from_gives = { λ _ e. e ≡ NoMemory };

    fn from(_error: AllocFailed<T>) -> HistoryFault {
        HistoryFault::NoMemory
    }
}
