//! What is said of a history and a certificate as a JSON object, with the exit status of the line that says the same.

ghost use Rattle.std.specs.Prelude.{◌≡◌, ℕ, IfOk};
ghost use Rattle.std.specs.Option.{option_copied};
ghost use Rattle.judging_commands.specs.Report.{status_of};
ghost use Rattle.judging_commands.specs.Objects.{HasStatus, HasStatusOfRead};

use crate::reporting::report_files_as_json;
use json_reports::{refusal_line, verdict_line};
use program_streams::Report;
use std::alloc::{AllocError, Global};
use witness_check::{FileVerdict, check_files};

/// The exit status of a verdict.
pub(crate) fn status_of(verdict: FileVerdict) -> u8
    ensures { result ≡ status_of verdict }
{
    match verdict {
        FileVerdict::Yes => 0,
        FileVerdict::No(_) => 1,
        FileVerdict::BadHistory(_) | FileVerdict::BadText(_) => 2,
    }
}

/// The object of a verdict.
pub(crate) fn verdict_object(alloc: Global, verdict: FileVerdict) -> Result<Report, AllocError>
    ensures { IfOk result (λ report. report.status ≡ status_of verdict) }
{
    Ok(Report::new(status_of(verdict), verdict_line(alloc, verdict)?))
}

/// The object of what can't be judged, for this reason.
pub fn refused_as_json(alloc: Global, reason: &str) -> Result<Report, AllocError>
    ensures { IfOk result (λ report. report.status ≡ 2) }
{
    Ok(Report::new(2, refusal_line(alloc, reason)?))
}

/// The object of a history file and a certificate's text; that memory runs out is no answer.
fn judge_files_as_json(
    alloc: Global,
    history: &[u8],
    certificate: &[u8],
) -> Result<Report, AllocError>
    ensures exact { IfOk result (λ report. HasStatus history.now certificate.now report.status) }
    ensures only { (status : ℕ) → HasStatus history.now certificate.now status
        → IfOk result (λ report. report.status ≡ status) }
{
    let verdict = check_files(alloc, history, certificate)?;
    verdict_object(alloc, verdict)
}

/// What is said of two files as they were read, as `judge_read` says it, but as a JSON object.
pub fn judge_read_as_json(
    alloc: Global,
    history: Option<&[u8]>,
    certificate: Option<&[u8]>,
) -> Result<Report, AllocError>
    // The status is that of the verdict on what was read.
    ensures exact { IfOk result (λ report. HasStatusOfRead (option_copied history.entry)
        (option_copied certificate.entry) report.status) }
    // That of the verdict on what was read is the status.
    ensures only { (status : ℕ)
        → HasStatusOfRead (option_copied history.entry) (option_copied certificate.entry) status
        → IfOk result (λ report. report.status ≡ status) }
{
    let Some(history) = history else {
        return refused_as_json(alloc, "unreadable history");
    };
    let Some(certificate) = certificate else {
        return refused_as_json(alloc, "unreadable certificate");
    };
    judge_files_as_json(alloc, history, certificate)
}

/// What is reported of two files as they were read, as `report_read` reports it, but as a JSON object.
pub fn report_read_as_json(
    alloc: Global,
    history: Option<&[u8]>,
    certificate: Option<&[u8]>,
) -> Result<Report, AllocError>
    // The status is that of the verdict on what was read.
    ensures { IfOk result (λ report. HasStatusOfRead (option_copied history.entry)
        (option_copied certificate.entry) report.status) }
{
    let Some(history) = history else {
        return refused_as_json(alloc, "unreadable history");
    };
    let Some(certificate) = certificate else {
        return refused_as_json(alloc, "unreadable certificate");
    };
    report_files_as_json(alloc, history, certificate)
}
