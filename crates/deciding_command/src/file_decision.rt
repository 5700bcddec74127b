//! What is decided of the bytes of a history file.

ghost use Rattle.std.specs.Prelude.{◌≡◌, IfOk};
ghost use Rattle.nfs_history.specs.declared.fault.HistoryFault.{HistoryFault};
ghost use Rattle.nfs_history.specs.FirstFault.{FirstFault};
ghost use Rattle.nfs_history.specs.History.{IsHistoryFile};
ghost use Rattle.deciding_command.specs.FileDecision.{Decides, IsRefused};

use crate::reached::{Reached, Unsettled};
use crate::within_time::{Effort, decide_within};
use certificate::{Certificate, write_certificate};
use decide::{Decision, Undecided};
use nfs_history::{History, HistoryFault, read_history};
use std::alloc::{AllocError, Global};
use std::io::Eprint;
use std::time::Clock;
use witness_check::{FileVerdict, check_files};

/// What is decided of the bytes of a history file.
#[derive(Drop)]
pub enum FileDecision {
    /// The text of a certificate with which the bytes are accepted.
    Yes(Vec<u8>),
    /// With no certificate are the bytes accepted.
    NoWitness {
        /// The number of the event, from 1: no order of the calls before it goes on over it.
        event: u64,
        /// The number of the call whose reply it is, from 1.
        call: u64,
    },
    /// Nothing is said of them, for this reason.
    Undecided(Unsettled),
    /// They are no history file: its first fault.
    BadHistory(HistoryFault),
}

/// A certificate's text, if `check_files` accepts it.
fn accepted_text(
    alloc: Global,
    bytes: &[u8],
    certificate: &Certificate,
    reached: Reached,
) -> Result<FileDecision, AllocError>
    ensures { IfOk result (Decides bytes.now) }
{
    let Ok(text) = write_certificate(alloc, certificate) else {
        return Err(AllocError);
    };
    match check_files(alloc, bytes, text.as_slice())? {
        FileVerdict::Yes => Ok(FileDecision::Yes(text)),
        _ => Ok(FileDecision::Undecided(Unsettled {
            reason: Undecided::NotAccepted,
            reached,
        })),
    }
}

/// What is decided of the history of which these are the bytes.
fn decide_read<R: Clock + Eprint + AllocGlobal>(
    rt: &R,
    bytes: &[u8],
    history: &History,
    effort: Effort,
) -> Result<FileDecision, AllocError>
    requires { IsHistoryFile bytes.now history.now }
    ensures { IfOk result (Decides bytes.now) }
{
    let (decision, reached) = decide_within(rt, history, effort);
    match decision {
        Decision::Yes(certificate) => accepted_text(rt.alloc(), bytes, &certificate, reached),
        Decision::No(refusal) => Ok(FileDecision::NoWitness {
            event: refusal.event,
            call: refusal.call,
        }),
        Decision::Undecided(reason) => Ok(FileDecision::Undecided(Unsettled { reason, reached })),
        Decision::NoMemory => Err(AllocError),
    }
}

/// Decides whether the bytes of a history file are accepted with any certificate, within so many seconds.
///
/// An `Err` means that memory ran out. It says nothing of the bytes.
pub fn decide_file<R: Clock + Eprint + AllocGlobal>(
    rt: &R,
    bytes: &[u8],
    effort: Effort,
) -> Result<FileDecision, AllocError>
    ensures decided { IfOk result (Decides bytes.now) }
    // Bytes that are no history file are refused, memory aside.
    ensures refused { (fault : HistoryFault) → FirstFault bytes.now fault → IfOk result IsRefused }
{
    match read_history(rt.alloc(), bytes) {
        Ok(history) => decide_read(rt, bytes, &history, effort),
        Err(HistoryFault::NoMemory) => Err(AllocError),
        Err(fault) => Ok(FileDecision::BadHistory(fault)),
    }
}
