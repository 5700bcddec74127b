//! Why a call of a book was refused.

use journal::DevFault;
use replay_law::StepFault;
use std::alloc::{AllocError, AllocFailed};
use std::fmt;
use thiserror::Error;

/// Why no call began. Nothing has changed.
#[derive(Clone, Copy, Debug, PartialEq, Eq, Drop, Error)]
pub enum BeginFault {
    /// It is down, after a fault, until a crash.
    Down,
    /// The lane is of an earlier era than this one, which is now.
    EraOver(u64),
    /// The lane was closed.
    LaneClosed,
    /// The message isn't a judged call that a history takes whatever its reply.
    BadRecord,
    /// An unanswered call of the lane has this transaction number.
    XidInUse,
    /// A growth was refused.
    NoMemory,
}

impl fmt::Display for BeginFault {
    ghost use Rattle.std.specs.Prelude.{Some};
    ghost use Rattle.book_ledger.specs.FaultText.{begin_fault_words};

    ghost output = { λ fault. Some (begin_fault_words fault) };

    fn fmt<W: fmt::Write>(&self, f: &mut fmt::Formatter<W>) -> fmt::Result {
        match self {
            BeginFault::Down => f.write_str("Down"),
            BeginFault::EraOver(number) => write!(f, "EraOver {number}"),
            BeginFault::LaneClosed => f.write_str("LaneClosed"),
            BeginFault::BadRecord => f.write_str("BadRecord"),
            BeginFault::XidInUse => f.write_str("XidInUse"),
            BeginFault::NoMemory => f.write_str("out of memory"),
        }
    }
}

impl From<AllocError> for BeginFault {
    ghost use Rattle.std.specs.Prelude.{◌≡◌};
    ghost use Rattle.book_ledger.specs.declared.fault.BeginFault.TheVariants.{NoMemory};

    ghost from_gives = { λ _ fault. fault ≡ NoMemory };

    fn from(_error: AllocError) -> BeginFault {
        BeginFault::NoMemory
    }
}

impl<T: Drop> From<AllocFailed<T>> for BeginFault {
    ghost use Rattle.std.specs.Prelude.{◌≡◌};
    ghost use Rattle.book_ledger.specs.declared.fault.BeginFault.TheVariants.{NoMemory};

    ghost from_gives = { λ _ fault. fault ≡ NoMemory };

    fn from(_error: AllocFailed<T>) -> BeginFault {
        BeginFault::NoMemory
    }
}

/// Why a call wasn't placed. After the last three the book is down.
#[derive(Clone, Copy, Debug, PartialEq, Eq, Drop, Error)]
pub enum PlaceFault {
    /// It is down, after a fault, until a crash.
    Down,
    /// The call is of an earlier era than this one, which is now.
    EraOver(u64),
    /// The lane was closed.
    LaneClosed,
    /// No call has this number, or it is placed already.
    OutOfTurn,
    /// The reply isn't one that the server may give here.
    NotLegal,
    /// The device failed.
    DeviceFault,
    /// A growth was refused.
    NoMemory,
}

impl fmt::Display for PlaceFault {
    ghost use Rattle.std.specs.Prelude.{Some};
    ghost use Rattle.book_ledger.specs.FaultText.{place_fault_words};

    ghost output = { λ fault. Some (place_fault_words fault) };

    fn fmt<W: fmt::Write>(&self, f: &mut fmt::Formatter<W>) -> fmt::Result {
        match self {
            PlaceFault::Down => f.write_str("Down"),
            PlaceFault::EraOver(number) => write!(f, "EraOver {number}"),
            PlaceFault::LaneClosed => f.write_str("LaneClosed"),
            PlaceFault::OutOfTurn => f.write_str("OutOfTurn"),
            PlaceFault::NotLegal => f.write_str("NotLegal"),
            PlaceFault::DeviceFault => f.write_str("DeviceFault"),
            PlaceFault::NoMemory => f.write_str("out of memory"),
        }
    }
}

impl From<AllocError> for PlaceFault {
    ghost use Rattle.std.specs.Prelude.{◌≡◌};
    ghost use Rattle.book_ledger.specs.declared.fault.PlaceFault.TheVariants.{NoMemory};

    ghost from_gives = { λ _ fault. fault ≡ NoMemory };

    fn from(_error: AllocError) -> PlaceFault {
        PlaceFault::NoMemory
    }
}

impl<T: Drop> From<AllocFailed<T>> for PlaceFault {
    ghost use Rattle.std.specs.Prelude.{◌≡◌};
    ghost use Rattle.book_ledger.specs.declared.fault.PlaceFault.TheVariants.{NoMemory};

    ghost from_gives = { λ _ fault. fault ≡ NoMemory };

    fn from(_error: AllocFailed<T>) -> PlaceFault {
        PlaceFault::NoMemory
    }
}

impl From<TokenFault> for PlaceFault {
    ghost use Rattle.std.specs.Prelude.{◌≡◌};
    ghost use Rattle.book_ledger.specs.JoinedFaults.{of_token_to_place};

    ghost from_gives = { λ token fault. fault ≡ of_token_to_place token };

    fn from(fault: TokenFault) -> PlaceFault {
        match fault {
            TokenFault::Down => PlaceFault::Down,
            TokenFault::EraOver(now) => PlaceFault::EraOver(now),
            TokenFault::LaneClosed => PlaceFault::LaneClosed,
            TokenFault::OutOfTurn => PlaceFault::OutOfTurn,
        }
    }
}

impl From<StepFault> for PlaceFault {
    ghost use Rattle.std.specs.Prelude.{◌≡◌};
    ghost use Rattle.book_ledger.specs.JoinedFaults.{of_step};

    ghost from_gives = { λ cause fault. fault ≡ of_step cause };

    fn from(fault: StepFault) -> PlaceFault {
        match fault {
            StepFault::NotAllowed => PlaceFault::NotLegal,
            StepFault::NoMemory => PlaceFault::NoMemory,
        }
    }
}

impl From<DevFault> for PlaceFault {
    ghost use Rattle.std.specs.Prelude.{◌≡◌};
    ghost use Rattle.book_ledger.specs.JoinedFaults.{of_device};

    ghost from_gives = { λ cause fault. fault ≡ of_device cause };

    fn from(fault: DevFault) -> PlaceFault {
        match fault {
            DevFault::Failed => PlaceFault::DeviceFault,
            DevFault::NoMemory => PlaceFault::NoMemory,
        }
    }
}

/// Why nothing was flushed.
#[derive(Clone, Copy, Debug, PartialEq, Eq, Drop, Error)]
pub enum FlushFault {
    /// It is down, after a fault, until a crash.
    Down,
    /// The device failed. The book is down.
    DeviceFault,
}

impl fmt::Display for FlushFault {
    ghost use Rattle.std.specs.Prelude.{Some};
    ghost use Rattle.book_ledger.specs.FaultText.{flush_fault_words};

    ghost output = { λ fault. Some (flush_fault_words fault) };

    fn fmt<W: fmt::Write>(&self, f: &mut fmt::Formatter<W>) -> fmt::Result {
        match self {
            FlushFault::Down => f.write_str("Down"),
            FlushFault::DeviceFault => f.write_str("DeviceFault"),
        }
    }
}

/// Why a reply may not go out. Nothing has changed.
#[derive(Clone, Copy, Debug, Drop, Error)]
pub enum AnswerFault {
    /// It is down, after a fault, until a crash.
    Down,
    /// The call is of an earlier era than this one, which is now.
    EraOver(u64),
    /// The lane was closed.
    LaneClosed,
    /// No call has this number, or it isn't placed, or it is answered already.
    OutOfTurn,
    /// What the reply promises isn't on stable storage: so many records are.
    NotDurable(u64),
    /// A growth was refused.
    NoMemory,
}

impl fmt::Display for AnswerFault {
    ghost use Rattle.std.specs.Prelude.{Some};
    ghost use Rattle.book_ledger.specs.FaultText.{answer_fault_words};

    ghost output = { λ fault. Some (answer_fault_words fault) };

    fn fmt<W: fmt::Write>(&self, f: &mut fmt::Formatter<W>) -> fmt::Result {
        match self {
            AnswerFault::Down => f.write_str("Down"),
            AnswerFault::EraOver(number) => write!(f, "EraOver {number}"),
            AnswerFault::LaneClosed => f.write_str("LaneClosed"),
            AnswerFault::OutOfTurn => f.write_str("OutOfTurn"),
            AnswerFault::NotDurable(number) => write!(f, "NotDurable {number}"),
            AnswerFault::NoMemory => f.write_str("out of memory"),
        }
    }
}

impl From<AllocError> for AnswerFault {
    ghost use Rattle.std.specs.Prelude.{◌≡◌};
    ghost use Rattle.book_ledger.specs.declared.fault.AnswerFault.TheVariants.{NoMemory};

    ghost from_gives = { λ _ fault. fault ≡ NoMemory };

    fn from(_error: AllocError) -> AnswerFault {
        AnswerFault::NoMemory
    }
}

impl<T: Drop> From<AllocFailed<T>> for AnswerFault {
    ghost use Rattle.std.specs.Prelude.{◌≡◌};
    ghost use Rattle.book_ledger.specs.declared.fault.AnswerFault.TheVariants.{NoMemory};

    ghost from_gives = { λ _ fault. fault ≡ NoMemory };

    fn from(_error: AllocFailed<T>) -> AnswerFault {
        AnswerFault::NoMemory
    }
}

impl From<TokenFault> for AnswerFault {
    ghost use Rattle.std.specs.Prelude.{◌≡◌};
    ghost use Rattle.book_ledger.specs.JoinedFaults.{of_token_to_answer};

    ghost from_gives = { λ token fault. fault ≡ of_token_to_answer token };

    fn from(fault: TokenFault) -> AnswerFault {
        match fault {
            TokenFault::Down => AnswerFault::Down,
            TokenFault::EraOver(now) => AnswerFault::EraOver(now),
            TokenFault::LaneClosed => AnswerFault::LaneClosed,
            TokenFault::OutOfTurn => AnswerFault::OutOfTurn,
        }
    }
}

/// Why a lane wasn't closed. Nothing has changed.
#[derive(Clone, Copy, Debug, PartialEq, Eq, Drop, Error)]
pub enum CloseFault {
    /// The lane is of an earlier era than this one, which is now.
    EraOver(u64),
    /// The lane was closed.
    LaneClosed,
    /// A growth was refused.
    NoMemory,
}

impl fmt::Display for CloseFault {
    ghost use Rattle.std.specs.Prelude.{Some};
    ghost use Rattle.book_ledger.specs.FaultText.{close_fault_words};

    ghost output = { λ fault. Some (close_fault_words fault) };

    fn fmt<W: fmt::Write>(&self, f: &mut fmt::Formatter<W>) -> fmt::Result {
        match self {
            CloseFault::EraOver(number) => write!(f, "EraOver {number}"),
            CloseFault::LaneClosed => f.write_str("LaneClosed"),
            CloseFault::NoMemory => f.write_str("out of memory"),
        }
    }
}

impl From<AllocError> for CloseFault {
    ghost use Rattle.std.specs.Prelude.{◌≡◌};
    ghost use Rattle.book_ledger.specs.declared.fault.CloseFault.TheVariants.{NoMemory};

    ghost from_gives = { λ _ fault. fault ≡ NoMemory };

    fn from(_error: AllocError) -> CloseFault {
        CloseFault::NoMemory
    }
}

impl<T: Drop> From<AllocFailed<T>> for CloseFault {
    ghost use Rattle.std.specs.Prelude.{◌≡◌};
    ghost use Rattle.book_ledger.specs.declared.fault.CloseFault.TheVariants.{NoMemory};

    ghost from_gives = { λ _ fault. fault ≡ NoMemory };

    fn from(_error: AllocFailed<T>) -> CloseFault {
        CloseFault::NoMemory
    }
}

/// Why no era began. After the last two the book is down for good.
#[derive(Clone, Copy, Debug, PartialEq, Eq, Drop, Error)]
pub enum CrashFault {
    /// It is down for good.
    Down,
    /// So many records are on stable storage.
    KeepTooSmall(u64),
    /// So many records are there.
    KeepTooLarge(u64),
    /// The device failed.
    DeviceFault,
    /// A growth was refused.
    NoMemory,
}

impl fmt::Display for CrashFault {
    ghost use Rattle.std.specs.Prelude.{Some};
    ghost use Rattle.book_ledger.specs.FaultText.{crash_fault_words};

    ghost output = { λ fault. Some (crash_fault_words fault) };

    fn fmt<W: fmt::Write>(&self, f: &mut fmt::Formatter<W>) -> fmt::Result {
        match self {
            CrashFault::Down => f.write_str("Down"),
            CrashFault::KeepTooSmall(number) => write!(f, "KeepTooSmall {number}"),
            CrashFault::KeepTooLarge(number) => write!(f, "KeepTooLarge {number}"),
            CrashFault::DeviceFault => f.write_str("DeviceFault"),
            CrashFault::NoMemory => f.write_str("out of memory"),
        }
    }
}

impl From<AllocError> for CrashFault {
    ghost use Rattle.std.specs.Prelude.{◌≡◌};
    ghost use Rattle.book_ledger.specs.declared.fault.CrashFault.TheVariants.{NoMemory};

    ghost from_gives = { λ _ fault. fault ≡ NoMemory };

    fn from(_error: AllocError) -> CrashFault {
        CrashFault::NoMemory
    }
}

impl<T: Drop> From<AllocFailed<T>> for CrashFault {
    ghost use Rattle.std.specs.Prelude.{◌≡◌};
    ghost use Rattle.book_ledger.specs.declared.fault.CrashFault.TheVariants.{NoMemory};

    ghost from_gives = { λ _ fault. fault ≡ NoMemory };

    fn from(_error: AllocFailed<T>) -> CrashFault {
        CrashFault::NoMemory
    }
}

/// Why a call can't be placed or answered.
#[derive(Clone, Copy)]
pub enum TokenFault {
    /// It is down, after a fault, until a crash.
    Down,
    /// The call is of an earlier era than this one, which is now.
    EraOver(u64),
    /// The lane was closed.
    LaneClosed,
    /// It isn't its turn.
    OutOfTurn,
}
