//! What is found of two files: the verdict, and what is behind a no or a refusal. A file is read once, and a plan is run once.

ghost use Rattle.std.specs.Prelude.{◌≡◌, ℕ, List, IfOk};
ghost use Rattle.nfs_history.specs.History.{IsCallsFile};
ghost use Rattle.witness_check.specs.Verdict.{IsVerdict, IsFileVerdict};
ghost use Rattle.explaining_command.specs.Found.{of_plan};

use crate::behind::{Behind, behind_fault, behind_reason};
use certificate::{Certificate, TextFault, read_certificate};
use fault_reasons::explain;
use nfs_history::{HistoryFault, KnownCalls, read_calls};
use refusal_words::refused_certificate;
use std::alloc::{AllocError, Global};
use witness_check::{FileVerdict, Verdict};

/// The verdict on a plan, and what is behind it.
#[derive(Drop)]
struct PlanFound {
    verdict: Verdict,
    behind: Behind,
}

/// The verdict on two files, and what is behind it.
#[derive(Drop)]
pub(crate) struct Found {
    pub(crate) verdict: FileVerdict,
    pub(crate) behind: Behind,
}

/// Judges a history and a certificate.
fn find_plan(
    alloc: Global,
    history: &KnownCalls<'_>,
    certificate: &Certificate,
) -> Result<PlanFound, AllocError>
    ensures { IfOk result (λ found. IsVerdict history.now certificate.now found.verdict) }
{
    let Some(reason) = explain(alloc, history, certificate)? else {
        return Ok(PlanFound {
            verdict: Verdict::Yes,
            behind: Behind::nothing(alloc),
        });
    };
    Ok(PlanFound {
        verdict: Verdict::No(reason.fault()),
        behind: behind_reason(alloc, history, certificate, &reason)?,
    })
}

/// The verdict on two files, where that on the plan is known.
fn of_plan(found: PlanFound) -> Found
    ensures { result.verdict ≡ of_plan found.verdict }
{
    let PlanFound { verdict, behind } = found;
    let verdict = match verdict {
        Verdict::Yes => FileVerdict::Yes,
        Verdict::No(fault) => FileVerdict::No(fault),
    };
    Found { verdict, behind }
}

/// Judges a history and a certificate's text.
fn find_text(alloc: Global, history: &KnownCalls<'_>, text: &[u8]) -> Result<Found, AllocError>
    ensures { (file : List ℕ) → IsCallsFile file history.now → IfOk result (λ found. IsFileVerdict file text.now found.verdict) }
{
    match read_certificate(alloc, text) {
        Ok(certificate) => Ok(of_plan(find_plan(alloc, history, &certificate)?)),
        Err(TextFault::NoMemory) => Err(AllocError),
        Err(fault) => Ok(Found {
            verdict: FileVerdict::BadText(fault),
            behind: Behind::of_lines(refused_certificate(alloc, text, fault)?),
        }),
    }
}

/// Judges a history file and a certificate's text.
pub(crate) fn find_files(
    alloc: Global,
    history: &[u8],
    certificate: &[u8],
) -> Result<Found, AllocError>
    ensures { IfOk result (λ found. IsFileVerdict history.now certificate.now found.verdict) }
{
    match read_calls(alloc, history) {
        Ok(known) => find_text(alloc, &known, certificate),
        Err(HistoryFault::NoMemory) => Err(AllocError),
        Err(fault) => Ok(Found {
            verdict: FileVerdict::BadHistory(fault),
            behind: behind_fault(alloc, history, fault)?,
        }),
    }
}
