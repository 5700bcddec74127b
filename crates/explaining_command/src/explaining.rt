//! The verdict on two files, and the reason of a no or a refusal.

ghost use Rattle.std.specs.Prelude.{◌≡◌, true, false, ℕ, List, IfOk};
ghost use Rattle.std.specs.Option.{option_copied};
ghost use Rattle.program_streams.specs.Told.{IsRefusal};
ghost use Rattle.judging_commands.specs.Report.{IsSaidOfFiles, IsSaidOfRead};
ghost use Rattle.explaining_command.specs.Explained.{IsExplained};

use crate::behind::Behind;
use crate::found::find_files;
use crate::telling::with_behind;
use judging_commands::verdict_report;
use program_streams::Report;
use std::alloc::{AllocError, Global};

/// What is said, and what is known behind it.
#[derive(Drop)]
struct Said {
    told: Report,
    behind: Behind,
}

/// What is said of a file that couldn't be read.
fn unreadable(alloc: Global, words: &str) -> Result<Said, AllocError>
    ensures { IfOk result (λ said. IsRefusal words.now said.told.status said.told.line) }
{
    Ok(Said {
        told: Report::refused(alloc, words)?,
        behind: Behind::nothing(alloc),
    })
}

/// What is said of a history file and a certificate's text.
fn said_of_files(alloc: Global, history: &[u8], certificate: &[u8]) -> Result<Said, AllocError>
    ensures { IfOk result (λ said. IsSaidOfFiles history.now certificate.now said.told.status said.told.line) }
{
    let found = find_files(alloc, history, certificate)?;
    Ok(Said {
        told: verdict_report(alloc, found.verdict)?,
        behind: found.behind,
    })
}

/// What is said of two files as they were read; one that couldn't be read has no bytes.
fn said_of_read(
    alloc: Global,
    history: Option<&[u8]>,
    certificate: Option<&[u8]>,
) -> Result<Said, AllocError>
    ensures { IfOk result (λ said. IsSaidOfRead (option_copied history.entry) (option_copied certificate.entry) said.told.status said.told.line) }
{
    let Some(history) = history else {
        return unreadable(alloc, "unreadable history");
    };
    let Some(certificate) = certificate else {
        return unreadable(alloc, "unreadable certificate");
    };
    said_of_files(alloc, history, certificate)
}

/// What is said of two files as they were read, and behind a no or a refusal its reason; one that couldn't be read has no bytes. With
/// `is_json` it is an object of JSON. That memory runs out is no answer.
#[tactic(auto, using(crate::proofs::Told::explained, crate::proofs::Told::object))]
pub fn explain_read(
    alloc: Global,
    history: Option<&[u8]>,
    certificate: Option<&[u8]>,
    is_json: bool,
) -> Result<Report, AllocError>
    // It begins with what `check` says, and has its status.
    ensures lines { is_json ≡ false → IfOk result (λ report. IsExplained (option_copied history.entry) (option_copied certificate.entry) report.status report.line) }
    // The status is that of `check`.
    ensures object { IfOk result (λ report. (line : List ℕ) × IsSaidOfRead (option_copied history.entry) (option_copied certificate.entry) report.status line) }
{
    let said = said_of_read(alloc, history, certificate)?;
    with_behind(alloc, &said.told, &said.behind, is_json)
}
