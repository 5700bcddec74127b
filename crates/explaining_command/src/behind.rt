//! What is known behind a no or a refusal.

use certificate::Certificate;
use fault_reasons::{IllegalPlace, Reason};
use nfs_history::{HistoryFault, KnownCalls};
use nfs3_msgs::put_result;
use nfs3_types::NfsReply;
use reason_words::reason_text;
use refusal_words::refused_history;
use std::alloc::{AllocError, Global};

/// The numbers of a reason.
#[derive(Clone, Copy)]
pub(crate) enum Told {
    /// A call can't have come out so at its place.
    Illegal {
        call: u64,
        era: u64,
        position: u64,
    },
    /// A call is placed ahead of another one, which had ended when it began.
    Early {
        call: u64,
        other: u64,
    },
    /// A cut loses a place that may not be lost.
    ShortCut {
        call: u64,
        era: u64,
        position: u64,
        cut: u64,
    },
    /// No order explains the reply to a call.
    NoWitness {
        event: u64,
        call: u64,
    },
}

/// What is known behind a no or a refusal.
#[derive(Drop)]
pub(crate) struct Behind {
    /// The numbers of the reason, where it has some.
    pub(crate) told: Option<Told>,
    /// The result of a reply that would be right (RFC 1813, section 3.3), where one was found.
    pub(crate) right: Option<Vec<u8>>,
    /// The words, as lines of printable bytes.
    pub(crate) lines: Vec<u8>,
}

impl Behind {
    /// Words alone.
    pub(crate) fn of_lines(lines: Vec<u8>) -> Behind {
        Behind {
            told: None,
            right: None,
            lines,
        }
    }

    /// Nothing.
    pub(crate) fn nothing(alloc: Global) -> Behind {
        Behind::of_lines(Vec::new(alloc))
    }
}

/// The numbers of a reason.
fn told_of(reason: &Reason) -> Option<Told> {
    match reason {
        Reason::Illegal(
            IllegalPlace {
                era,
                position,
                number,
                ..
            },
        ) => Some(Told::Illegal {
            call: *number,
            era: *era,
            position: *position,
        }),
        Reason::Early { call, other } => Some(Told::Early {
            call: call.number,
            other: other.number,
        }),
        Reason::ShortCut(lost) => Some(Told::ShortCut {
            call: lost.number,
            era: lost.era,
            position: lost.position,
            cut: lost.cut,
        }),
        Reason::Other(_) => None,
    }
}

/// The result that a reply has behind its head.
fn result_of(alloc: Global, reply: &NfsReply) -> Result<Vec<u8>, AllocError> {
    let mut result = Vec::new(alloc);
    put_result(&mut result, reply)?;
    Ok(result)
}

/// The result of the reply that would be right, where one was found.
fn right_of(alloc: Global, reason: &Reason) -> Result<Option<Vec<u8>>, AllocError> {
    let Reason::Illegal(place) = reason else {
        return Ok(None);
    };
    match &place.right {
        Some(reply) => Ok(Some(result_of(alloc, reply)?)),
        None => Ok(None),
    }
}

/// What is known of a reason.
pub(crate) fn behind_reason(
    alloc: Global,
    history: &KnownCalls<'_>,
    certificate: &Certificate,
    reason: &Reason,
) -> Result<Behind, AllocError> {
    let right = right_of(alloc, reason)?;
    let lines = reason_text(alloc, history, certificate, reason)?;
    Ok(Behind {
        told: told_of(reason),
        right,
        lines,
    })
}

/// Why a history file is refused.
pub(crate) fn behind_fault(
    alloc: Global,
    history: &[u8],
    fault: HistoryFault,
) -> Result<Behind, AllocError> {
    if fault == HistoryFault::NoMemory {
        return Err(AllocError);
    }
    Ok(Behind::of_lines(refused_history(alloc, history, fault)?))
}
