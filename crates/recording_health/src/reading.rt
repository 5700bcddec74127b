//! What `check` would say of a recording's file, and whether it has a judged call.

use crate::replies::given_nothing;
use nfs_history::{CallKind, HistoryFault, KnownCalls, read_calls};
use std::alloc::{AllocError, Global};

/// What is read of the file of a recording.
#[derive(Clone, Copy, PartialEq, Eq)]
pub struct Reading {
    /// Why the history can't be judged, if it can't.
    pub fault: Option<HistoryFault>,
    /// How many of its calls are judged.
    pub judged: u64,
    /// How many were answered by a success that gives nothing of what they ask for, and not the end.
    pub empty: u64,
    /// The first of these.
    pub first_empty: u64,
}

impl Reading {
    /// Nothing was read, and nothing is said of the file.
    pub const NONE: Reading = Reading {
        fault: None,
        judged: 1,
        empty: 0,
        first_empty: 0,
    };
}

/// How many calls are judged.
fn judged_in(known: &KnownCalls<'_>) -> u64 {
    let judged = known
        .kinds()
        .iter()
        .filter(|kind| !matches!(kind, CallKind::Unjudged));
    judged.count() as u64
}

/// What is read of the calls of a history.
fn reading_in(alloc: Global, known: &KnownCalls<'_>) -> Result<Reading, AllocError> {
    let (empty, first_empty) = given_nothing(alloc, known)?;
    Ok(Reading {
        fault: None,
        judged: judged_in(known),
        empty,
        first_empty,
    })
}

/// Reads the bytes of a history's file. An `Err` means that memory ran out.
pub fn reading_of(alloc: Global, bytes: &[u8]) -> Result<Reading, AllocError> {
    match read_calls(alloc, bytes) {
        Ok(known) => reading_in(alloc, &known),
        Err(HistoryFault::NoMemory) => Err(AllocError),
        Err(fault) => Ok(Reading {
            fault: Some(fault),
            judged: 0,
            empty: 0,
            first_empty: 0,
        }),
    }
}
