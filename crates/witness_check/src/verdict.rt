//! The verdict on a history and a certificate.

ghost use Rattle.std.specs.Prelude.{◌≡◌, ℕ, List, IfOk, IfErr, OnOk};
ghost use Rattle.order_check.specs.nfs_history_specs.declared.fault.HistoryFault.{HistoryFault};
ghost use Rattle.order_check.specs.nfs_history_specs.Answers.{IsErrorOf};
ghost use Rattle.order_check.specs.nfs_history_specs.FirstFault.{FirstFault};
ghost use Rattle.order_check.specs.nfs_history_specs.History.{IsCallsFile};
ghost use Rattle.witness_check.specs.Witness.{IsWitness};
ghost use Rattle.witness_check.specs.Verdict.{IsVerdict, IsFileVerdict};
ghost use Rattle.witness_check.specs.Stop.{IsJudged};
ghost use Rattle.witness_check.specs.Told.{TellsFault};
ghost use Rattle.witness_check.specs.declared.verdict.Verdict.{Verdict};
ghost use Rattle.witness_check.specs.declared.verdict.FileVerdict.{FileVerdict};

use crate::fault::{CheckFault, Fault, Stop};
use crate::run::{rule_of, run_plan};
use certificate::{Certificate, TextFault, read_certificate};
use cut_check::{check_cuts_of_calls, check_verifiers_of_calls};
use order_check::nfs_history::{History, HistoryFault, KnownCalls, read_calls};
use order_check::{check_order_of_calls, check_shape_of_calls};
use std::alloc::{AllocError, Global};

/// What is found of a history and a certificate.
#[derive(Clone, Copy)]
pub enum Verdict {
    /// The certificate is a witness: its serial order is a legal one, and its cuts lose nothing that must stay.
    Yes,
    /// It isn't, for this fault.
    No(Fault),
}

/// What is found of a history and a certificate, with the tree where the run stops.
#[derive(Drop)]
pub enum Judgement {
    /// The certificate is a witness.
    Yes,
    /// It isn't, for this fault, which isn't that of the run.
    No(Fault),
    /// It isn't, since a call can't have come out so at its place: `Fault::Illegal`.
    Stopped(Stop),
}

/// What is found of a history file and a certificate text.
#[derive(Clone, Copy, PartialEq, Eq)]
pub enum FileVerdict {
    /// The certificate is a witness of the history.
    Yes,
    /// It isn't, for this fault.
    No(Fault),
    /// The first text is no history. It is never said because memory ran out.
    BadHistory(HistoryFault),
    /// The second text is no certificate. It is never said because memory ran out.
    BadText(TextFault),
}

/// The shape, then the order, the run, the cuts and the write verifiers.
fn check_parts(
    alloc: Global,
    history: &KnownCalls<'_>,
    certificate: &Certificate,
) -> Result<(), CheckFault>
    ensures ok { OnOk result (IsWitness history.now certificate.now) }
    ensures fault { IfErr result (TellsFault history.now certificate.now) }
{
    let calls = history.lend();
    check_shape_of_calls(alloc, &calls, certificate)?;
    let rule = rule_of(alloc, history, certificate)?;
    check_order_of_calls(&calls, certificate)?;
    run_plan(alloc, history, &rule, certificate)?;
    check_cuts_of_calls(alloc, &calls, &rule.setting.binds, certificate)?;
    check_verifiers_of_calls(alloc, &calls, certificate)?;
    Ok(())
}

/// Whether the certificate is a witness, or else its first fault; where its run stops, with the tree there. It takes what `check_calls` takes.
pub fn judge_calls(
    alloc: Global,
    history: &KnownCalls<'_>,
    certificate: &Certificate,
) -> Result<Judgement, AllocError>
    // The answer is the verdict on the two, and the tree is the one that the call finds at its place.
    ensures { IfOk result (IsJudged history.now certificate.now) }
{
    match check_parts(alloc, history, certificate) {
        Ok(()) => Ok(Judgement::Yes),
        Err(CheckFault::No(fault)) => Ok(Judgement::No(fault)),
        Err(CheckFault::Stopped(stop)) => Ok(Judgement::Stopped(stop)),
        Err(CheckFault::NoMemory) => Err(AllocError),
    }
}

/// Whether the certificate is a witness, or else its first fault; that no other answer is right is said at `check`.
fn verdict_of(
    alloc: Global,
    history: &KnownCalls<'_>,
    certificate: &Certificate,
) -> Result<Verdict, AllocError>
    ensures { IfOk result (IsVerdict history.now certificate.now) }
{
    match judge_calls(alloc, history, certificate)? {
        Judgement::Yes => Ok(Verdict::Yes),
        Judgement::No(fault) => Ok(Verdict::No(fault)),
        Judgement::Stopped(stop) => Ok(Verdict::No(Fault::Illegal(stop.number))),
    }
}

/// The same, of the calls of a history.
pub fn check_calls(
    alloc: Global,
    history: &KnownCalls<'_>,
    certificate: &Certificate,
) -> Result<Verdict, AllocError>
    // The answer is the verdict on the two.
    ensures verdict { IfOk result (IsVerdict history.now certificate.now) }
    // The verdict on the two is the answer, memory aside.
    ensures only { (verdict : Verdict) → IsVerdict history.now certificate.now verdict → IfOk result (λ given. given ≡ verdict) }
{
    verdict_of(alloc, history, certificate)
}

/// Returns `Yes` if the certificate is a witness of the history, else its first fault. An `Err` means that memory ran out.
pub fn check(
    alloc: Global,
    history: &History,
    certificate: &Certificate,
) -> Result<Verdict, AllocError>
    // The answer is the verdict on the two.
    ensures verdict { IfOk result (IsVerdict history.now.known certificate.now) }
    // The verdict on the two is the answer, memory aside.
    ensures only { (verdict : Verdict) → IsVerdict history.now.known certificate.now verdict → IfOk result (λ given. given ≡ verdict) }
{
    let known = history.lend_calls(alloc)?;
    check_calls(alloc, &known, certificate)
}

/// The verdict on a file, of which this was read, and a text; that no other is right is said at `check_files`.
fn verdict_on(
    alloc: Global,
    read: Result<KnownCalls<'_>, HistoryFault>,
    certificate: &[u8],
) -> Result<FileVerdict, AllocError>
    ensures { (file : List ℕ) → IfOk read.entry (IsCallsFile file) → IsErrorOf (FirstFault file) read.entry
        → IfOk result (IsFileVerdict file certificate.now) }
{
    let history = match read {
        Ok(history) => history,
        Err(HistoryFault::NoMemory) => return Err(AllocError),
        Err(fault) => return Ok(FileVerdict::BadHistory(fault)),
    };
    let certificate = match read_certificate(alloc, certificate) {
        Ok(certificate) => certificate,
        Err(TextFault::NoMemory) => return Err(AllocError),
        Err(fault) => return Ok(FileVerdict::BadText(fault)),
    };
    match verdict_of(alloc, &history, &certificate)? {
        Verdict::Yes => Ok(FileVerdict::Yes),
        Verdict::No(fault) => Ok(FileVerdict::No(fault)),
    }
}

/// Returns the verdict on a history file and a certificate text.
///
/// - `Yes`: both are well formed, and the certificate's plan has the right shape (each answered judged call once, with its reply), keeps
///   the order in which calls ended and began, runs (each reply is right at its place), loses no stable call in a crash, and explains
///   the write verifiers.
/// - `No`: both are well formed, and this is the first of the five that fails, in that order, with the first place where it does.
/// - `BadHistory`, `BadText`: the first fault of a text that isn't well formed; the history is read first.
///
/// An `Err` means that memory ran out. It is no verdict, and nothing changed.
pub fn check_files(
    alloc: Global,
    history: &[u8],
    certificate: &[u8],
) -> Result<FileVerdict, AllocError>
    // The answer is the verdict on the two texts.
    ensures verdict { IfOk result (IsFileVerdict history.now certificate.now) }
    // The verdict on the two texts is the answer, memory aside.
    ensures only { (verdict : FileVerdict) → IsFileVerdict history.now certificate.now verdict
        → IfOk result (λ given. given ≡ verdict) }
{
    verdict_on(alloc, read_calls(alloc, history), certificate)
}
