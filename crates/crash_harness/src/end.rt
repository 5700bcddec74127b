//! Why a run gave no history.

use journal_server::{CloseFault, CrashFault, JoinFault};
use std::alloc::AllocError;
use std::fmt;
use thiserror::Error;

/// Why a run gave no history.
#[derive(Clone, Copy, Debug, Drop, Error)]
pub enum RunEnd {
    /// A crash failed.
    Crash(CrashFault),
    /// The server didn't close.
    Close(CloseFault),
    /// A growth was refused.
    NoMemory,
}

impl fmt::Display for RunEnd {
    fn fmt<W: fmt::Write>(&self, f: &mut fmt::Formatter<W>) -> fmt::Result {
        match self {
            RunEnd::Crash(fault) => write!(f, "crash: {fault}"),
            RunEnd::Close(fault) => write!(f, "close: {fault}"),
            RunEnd::NoMemory => f.write_str("out of memory"),
        }
    }
}

impl From<AllocError> for RunEnd {
    fn from(_error: AllocError) -> RunEnd {
        RunEnd::NoMemory
    }
}

impl From<JoinFault> for RunEnd {
    // A plan has fewer lanes than a server gives out.
    fn from(_fault: JoinFault) -> RunEnd {
        RunEnd::NoMemory
    }
}
