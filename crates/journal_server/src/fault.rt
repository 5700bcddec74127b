//! Why a server refused.

use recorder::{AnswerFault, BeginFault, FlushFault, PlaceFault};
use std::alloc::{AllocError, AllocFailed};
use std::fmt;
use thiserror::Error;

/// Why a call got no reply. What began stays in the history, unanswered.
#[derive(Clone, Copy, Debug, PartialEq, Eq, Drop, Error)]
pub enum CallFault {
    /// The message isn't a call, or is over the limit of a record.
    BadRecord,
    /// The server is down after a fault: until a crash, or for good where a crash failed or the objects were given up.
    Down,
    /// The lane is of an earlier era than this one, which is now.
    EraOver(u64),
    /// The lane was closed.
    LaneClosed,
    /// An unanswered call of the lane has this transaction number.
    XidInUse,
    /// A growth was refused.
    NoMemory,
}

impl fmt::Display for CallFault {
    ghost use Rattle.std.specs.Prelude.{Some};
    ghost use Rattle.journal_server.specs.FaultText.{call_fault_words};

    ghost output = { λ fault. Some (call_fault_words fault) };

    fn fmt<W: fmt::Write>(&self, f: &mut fmt::Formatter<W>) -> fmt::Result {
        match self {
            CallFault::BadRecord => f.write_str("BadRecord"),
            CallFault::Down => f.write_str("Down"),
            CallFault::EraOver(number) => write!(f, "EraOver {number}"),
            CallFault::LaneClosed => f.write_str("LaneClosed"),
            CallFault::XidInUse => f.write_str("XidInUse"),
            CallFault::NoMemory => f.write_str("out of memory"),
        }
    }
}

impl From<AllocError> for CallFault {
    ghost use Rattle.std.specs.Prelude.{◌≡◌};
    ghost use Rattle.journal_server.specs.declared.fault.CallFault.TheVariants.{NoMemory};

    ghost from_gives = { λ _ fault. fault ≡ NoMemory };

    fn from(_error: AllocError) -> CallFault {
        CallFault::NoMemory
    }
}

impl<T: Drop> From<AllocFailed<T>> for CallFault {
    ghost use Rattle.std.specs.Prelude.{◌≡◌};
    ghost use Rattle.journal_server.specs.declared.fault.CallFault.TheVariants.{NoMemory};

    ghost from_gives = { λ _ fault. fault ≡ NoMemory };

    fn from(_error: AllocFailed<T>) -> CallFault {
        CallFault::NoMemory
    }
}

impl From<BeginFault> for CallFault {
    ghost use Rattle.std.specs.Prelude.{◌≡◌};
    ghost use Rattle.journal_server.specs.FaultText.{begin_told};

    ghost from_gives = { λ fault told. told ≡ begin_told fault };

    fn from(fault: BeginFault) -> CallFault {
        match fault {
            // Of a message that the server took for a call to record.
            BeginFault::BadRecord | BeginFault::Down => CallFault::Down,
            BeginFault::EraOver(now) => CallFault::EraOver(now),
            BeginFault::LaneClosed => CallFault::LaneClosed,
            BeginFault::XidInUse => CallFault::XidInUse,
            BeginFault::NoMemory => CallFault::NoMemory,
        }
    }
}

impl From<PlaceFault> for CallFault {
    ghost use Rattle.std.specs.Prelude.{◌≡◌};
    ghost use Rattle.journal_server.specs.FaultText.{place_told};

    ghost from_gives = { λ fault told. told ≡ place_told fault };

    fn from(fault: PlaceFault) -> CallFault {
        match fault {
            PlaceFault::Down
            | PlaceFault::OutOfTurn
            | PlaceFault::NotLegal
            | PlaceFault::DeviceFault => CallFault::Down,
            PlaceFault::EraOver(now) => CallFault::EraOver(now),
            PlaceFault::LaneClosed => CallFault::LaneClosed,
            PlaceFault::NoMemory => CallFault::NoMemory,
        }
    }
}

impl From<FlushFault> for CallFault {
    ghost use Rattle.std.specs.Prelude.{◌≡◌};
    ghost use Rattle.journal_server.specs.declared.fault.CallFault.TheVariants.{Down};

    ghost from_gives = { λ _ told. told ≡ Down };

    fn from(_fault: FlushFault) -> CallFault {
        CallFault::Down
    }
}

impl From<AnswerFault> for CallFault {
    ghost use Rattle.std.specs.Prelude.{◌≡◌};
    ghost use Rattle.journal_server.specs.FaultText.{answer_told};

    ghost from_gives = { λ fault told. told ≡ answer_told fault };

    fn from(fault: AnswerFault) -> CallFault {
        match fault {
            AnswerFault::Down | AnswerFault::OutOfTurn | AnswerFault::NotDurable(_) => {
                CallFault::Down
            }
            AnswerFault::EraOver(now) => CallFault::EraOver(now),
            AnswerFault::LaneClosed => CallFault::LaneClosed,
            AnswerFault::NoMemory => CallFault::NoMemory,
        }
    }
}

impl From<recorder::CloseFault> for CallFault {
    ghost use Rattle.std.specs.Prelude.{◌≡◌};
    ghost use Rattle.journal_server.specs.FaultText.{close_told};

    ghost from_gives = { λ fault told. told ≡ close_told fault };

    fn from(fault: recorder::CloseFault) -> CallFault {
        match fault {
            recorder::CloseFault::EraOver(now) => CallFault::EraOver(now),
            recorder::CloseFault::LaneClosed => CallFault::LaneClosed,
            recorder::CloseFault::NoMemory => CallFault::NoMemory,
        }
    }
}

/// Why no pass was given out.
#[derive(Clone, Copy, Debug, Drop, Error)]
pub enum JoinFault {
    /// 65,535 passes were given out.
    TooManyLanes,
    /// A growth was refused.
    NoMemory,
}

impl fmt::Display for JoinFault {
    ghost use Rattle.std.specs.Prelude.{Some};
    ghost use Rattle.journal_server.specs.FaultText.{join_fault_words};

    ghost output = { λ fault. Some (join_fault_words fault) };

    fn fmt<W: fmt::Write>(&self, f: &mut fmt::Formatter<W>) -> fmt::Result {
        match self {
            JoinFault::TooManyLanes => f.write_str("TooManyLanes"),
            JoinFault::NoMemory => f.write_str("out of memory"),
        }
    }
}

/// Why a crash failed. After the last two the server is down for good.
#[derive(Clone, Copy, Debug, PartialEq, Eq, Drop, Error)]
pub enum CrashFault {
    /// The server is down for good.
    Down,
    /// The device failed.
    DeviceFault,
    /// A growth was refused.
    NoMemory,
}

impl fmt::Display for CrashFault {
    ghost use Rattle.std.specs.Prelude.{Some};
    ghost use Rattle.journal_server.specs.FaultText.{crash_fault_words};

    ghost output = { λ fault. Some (crash_fault_words fault) };

    fn fmt<W: fmt::Write>(&self, f: &mut fmt::Formatter<W>) -> fmt::Result {
        match self {
            CrashFault::Down => f.write_str("Down"),
            CrashFault::DeviceFault => f.write_str("DeviceFault"),
            CrashFault::NoMemory => f.write_str("out of memory"),
        }
    }
}

impl From<recorder::CrashFault> for CrashFault {
    ghost use Rattle.std.specs.Prelude.{◌≡◌};
    ghost use Rattle.journal_server.specs.FaultText.{crash_told};

    ghost from_gives = { λ fault told. told ≡ crash_told fault };

    fn from(fault: recorder::CrashFault) -> CrashFault {
        match fault {
            // The number that it keeps is always in range.
            recorder::CrashFault::Down
            | recorder::CrashFault::KeepTooSmall(_)
            | recorder::CrashFault::KeepTooLarge(_) => CrashFault::Down,
            recorder::CrashFault::DeviceFault => CrashFault::DeviceFault,
            recorder::CrashFault::NoMemory => CrashFault::NoMemory,
        }
    }
}
