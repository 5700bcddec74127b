//! What is said of a history and a certificate: a line and an exit status.

ghost use Rattle.std.specs.Prelude.{◌≡◌, ℕ, List, IfOk};
ghost use Rattle.std.specs.Option.{option_copied};
ghost use Rattle.judging_commands.specs.Report.{IsSaid, IsSaidOfFiles, IsSaidOfRead, line_of, status_of};

use crate::bundle::{BundleFault, read_bundle};
use program_streams::{Report, line_of};
use std::alloc::{AllocError, Global};
use witness_check::{FileVerdict, check_files};

/// What is said of a verdict.
pub fn verdict_report(alloc: Global, verdict: FileVerdict) -> Result<Report, AllocError>
    ensures status { IfOk result (λ report. report.status ≡ status_of verdict) }
    ensures line { IfOk result (λ report. report.line ≡ line_of verdict) }
{
    match verdict {
        FileVerdict::Yes => Ok(Report::new(0, String::from_str(alloc, "yes\n")?)),
        FileVerdict::No(fault) => Ok(Report::new(1, line_of(alloc, "no: ", &fault)?)),
        FileVerdict::BadHistory(fault) => {
            Ok(Report::new(2, line_of(alloc, "refused: ", &fault)?))
        }
        FileVerdict::BadText(fault) => Ok(Report::new(2, line_of(alloc, "refused: ", &fault)?)),
    }
}

/// What is said of a history file and a certificate's text; that memory runs out is no answer.
pub fn judge_files(alloc: Global, history: &[u8], certificate: &[u8]) -> Result<Report, AllocError>
    // The answer is what is said of the two texts.
    ensures exact { IfOk result (λ report.
        IsSaidOfFiles history.now certificate.now report.status report.line) }
    // What is said of the two texts is the answer.
    ensures only { (status : ℕ) (line : List ℕ) → IsSaidOfFiles history.now certificate.now status line
        → IfOk result (λ report. (report.status ≡ status) × (report.line ≡ line)) }
{
    let verdict = check_files(alloc, history, certificate)?;
    verdict_report(alloc, verdict)
}

/// What is said of two files as they were read; one that couldn't be read has no bytes.
pub fn judge_read(
    alloc: Global,
    history: Option<&[u8]>,
    certificate: Option<&[u8]>,
) -> Result<Report, AllocError>
    // The answer is what is said of what was read.
    ensures exact { IfOk result (λ report. IsSaidOfRead (option_copied history.entry)
        (option_copied certificate.entry) report.status report.line) }
    // What is said of what was read is the answer.
    ensures only { (status : ℕ) (line : List ℕ)
        → IsSaidOfRead (option_copied history.entry) (option_copied certificate.entry) status line
        → IfOk result (λ report. (report.status ≡ status) × (report.line ≡ line)) }
{
    let Some(history) = history else {
        return Report::refused(alloc, "unreadable history");
    };
    let Some(certificate) = certificate else {
        return Report::refused(alloc, "unreadable certificate");
    };
    judge_files(alloc, history, certificate)
}

/// What is said of bytes, which are a bundle or none.
pub fn judge(alloc: Global, bytes: &[u8]) -> Result<Report, AllocError>
    // The answer is what is said of the bytes.
    ensures exact { IfOk result (λ report. IsSaid bytes.now report.status report.line) }
    // What is said of the bytes is the answer.
    ensures only { (status : ℕ) (line : List ℕ) → IsSaid bytes.now status line
        → IfOk result (λ report. (report.status ≡ status) × (report.line ≡ line)) }
{
    match read_bundle(alloc, bytes) {
        Ok(bundle) => judge_files(alloc, bundle.history.as_slice(), bundle.certificate),
        Err(BundleFault::Malformed) => Report::refused(alloc, "bad bundle"),
        Err(BundleFault::NoMemory) => Err(AllocError),
    }
}
