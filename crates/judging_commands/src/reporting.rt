//! What a history comes to in numbers, and the verdict on it and a certificate.

ghost use Rattle.std.specs.Prelude.{◌≡◌, ◌++◌, ℕ, List, [], codes, IfOk, OnErr, Option, Some, None, option_map, string_bytes};
ghost use Rattle.std.specs.Option.{option_copied};
ghost use Rattle.nfs_history.specs.History.{IsCallsFile};
ghost use Rattle.witness_check.specs.Verdict.{IsFileVerdict};
ghost use Rattle.judging_commands.specs.Report.{line_of, status_of};
ghost use Rattle.judging_commands.specs.Reported.{IsLost, IsReported, IsReportedOfRead, count_lines, lost_lines, number_line};
ghost use Rattle.judging_commands.specs.Objects.{HasStatus};

use crate::objects::{status_of, verdict_object};
use crate::report::verdict_report;
use certificate::{TextFault, read_certificate};
use history_report::{HistoryNumbers, lost_of_calls, report_of_calls};
use json_reports::report_line;
use nfs_history::{HistoryFault, KnownCalls, read_calls};
use program_streams::Report;
use std::alloc::{AllocError, Global};
use witness_check::{FileVerdict, Verdict, check_calls};

/// What is found of a history and a certificate's text: the verdict, and with a yes how many places were lost.
#[derive(Drop)]
struct Finding {
    verdict: FileVerdict,
    lost: Option<u64>,
}

/// Judges a history and a certificate's text.
fn find(alloc: Global, history: &KnownCalls<'_>, certificate: &[u8]) -> Result<Finding, AllocError>
    ensures verdict { (file : List ℕ) → IsCallsFile file history.now
        → IfOk result (λ finding. IsFileVerdict file certificate.now finding.verdict) }
    ensures lost { IfOk result (λ finding.
        IsLost history.now certificate.now finding.verdict finding.lost) }
{
    let certificate = match read_certificate(alloc, certificate) {
        Ok(certificate) => certificate,
        Err(TextFault::NoMemory) => return Err(AllocError),
        Err(fault) => {
            return Ok(Finding {
                verdict: FileVerdict::BadText(fault),
                lost: None,
            });
        }
    };
    match check_calls(alloc, history, &certificate)? {
        Verdict::Yes => Ok(Finding {
            verdict: FileVerdict::Yes,
            lost: Some(lost_of_calls(history, &certificate)),
        }),
        Verdict::No(fault) => Ok(Finding {
            verdict: FileVerdict::No(fault),
            lost: None,
        }),
    }
}

/// Writes a line of a word and a number behind a text.
pub fn put_number(
    alloc: Global,
    text: &mut String,
    word: &str,
    number: u64,
) -> Result<(), AllocError>
    ensures ok { IfOk result (λ _. string_bytes text.new ≡ string_bytes text.old ++ number_line word.now number) }
    ensures err { OnErr result (string_bytes text.new ≡ string_bytes text.old) }
{
    let line = format!(in alloc; "{word} {number}\n")?;
    text.push_str(line.as_str())
}

/// The lines of what is counted of a history.
fn count_lines(alloc: Global, counts: &HistoryNumbers) -> Result<String, AllocError>
    ensures { IfOk result (λ lines. string_bytes lines ≡ count_lines counts.now) }
{
    let mut lines = String::new(alloc);
    put_number(alloc, &mut lines, "calls", counts.calls)?;
    put_number(alloc, &mut lines, "judged", counts.judged)?;
    put_number(alloc, &mut lines, "answered", counts.answered)?;
    put_number(alloc, &mut lines, "unjudged", counts.unjudged)?;
    put_number(alloc, &mut lines, "excused", counts.excused)?;
    put_number(alloc, &mut lines, "eras", counts.eras)?;
    Ok(lines)
}

/// Writes the line of what was lost behind a text, if it is known.
fn put_lost(alloc: Global, text: &mut String, lost: Option<u64>) -> Result<(), AllocError>
    ensures { IfOk result (λ _. string_bytes text.new ≡ string_bytes text.old ++ lost_lines lost) }
{
    match lost {
        Some(lost) => put_number(alloc, text, "lost", lost),
        None => Ok(()),
    }
}

/// What is said of a history's numbers and what was found of it.
fn report_found(
    alloc: Global,
    counts: &HistoryNumbers,
    finding: Finding,
) -> Result<Report, AllocError>
    ensures status { IfOk result (λ report. report.status ≡ status_of finding.verdict) }
    ensures line { IfOk result (λ report.
        report.line ≡ (count_lines counts.now ++ lost_lines finding.lost) ++ line_of finding.verdict) }
{
    let mut lines = count_lines(alloc, counts)?;
    put_lost(alloc, &mut lines, finding.lost)?;
    verdict_report(alloc, finding.verdict)?.behind(lines)
}

/// What a history file comes to in numbers, and the verdict on it and a certificate's text; that memory runs out is no
/// answer.
pub(crate) fn report_files(
    alloc: Global,
    history: &[u8],
    certificate: &[u8],
) -> Result<Report, AllocError>
    ensures { IfOk result (λ report. IsReported history.now certificate.now report.status report.line) }
{
    match read_calls(alloc, history) {
        Ok(history) => {
            let counts = report_of_calls(&history);
            let finding = find(alloc, &history, certificate)?;
            report_found(alloc, &counts, finding)
        }
        Err(HistoryFault::NoMemory) => Err(AllocError),
        Err(fault) => verdict_report(alloc, FileVerdict::BadHistory(fault)),
    }
}

/// The object of a history's numbers and what was found of it.
fn found_object(
    alloc: Global,
    counts: &HistoryNumbers,
    finding: &Finding,
) -> Result<Report, AllocError>
    ensures { IfOk result (λ report. report.status ≡ status_of finding.now.verdict) }
{
    let line = report_line(alloc, finding.verdict, counts, finding.lost)?;
    Ok(Report::new(status_of(finding.verdict), line))
}

/// The same as a JSON object.
pub(crate) fn report_files_as_json(
    alloc: Global,
    history: &[u8],
    certificate: &[u8],
) -> Result<Report, AllocError>
    ensures { IfOk result (λ report. HasStatus history.now certificate.now report.status) }
{
    match read_calls(alloc, history) {
        Ok(history) => {
            let counts = report_of_calls(&history);
            let finding = find(alloc, &history, certificate)?;
            found_object(alloc, &counts, &finding)
        }
        Err(HistoryFault::NoMemory) => Err(AllocError),
        Err(fault) => verdict_object(alloc, FileVerdict::BadHistory(fault)),
    }
}

/// What is said of two files as they were read; one that couldn't be read has no bytes.
pub fn report_read(
    alloc: Global,
    history: Option<&[u8]>,
    certificate: Option<&[u8]>,
) -> Result<Report, AllocError>
    ensures { IfOk result (λ report. IsReportedOfRead (option_copied history.entry)
        (option_copied certificate.entry) report.status report.line) }
{
    let Some(history) = history else {
        return Report::refused(alloc, "unreadable history");
    };
    let Some(certificate) = certificate else {
        return Report::refused(alloc, "unreadable certificate");
    };
    report_files(alloc, history, certificate)
}
