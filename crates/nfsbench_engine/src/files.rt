//! Files, as they can be read.

ghost use Rattle.std.specs.Prelude.{◌≡◌, ℕ, false, List, IfOk, Option};
ghost use Rattle.showing_command.specs.judging_commands_specs.Report.{IsSaidOfRead};
ghost use Rattle.showing_command.specs.judging_commands_specs.Reported.{IsReportedOfRead};
ghost use Rattle.showing_command.specs.judging_commands_specs.Objects.{HasStatusOfRead};
ghost use Rattle.night_command.specs.explaining_command_specs.Explained.{IsExplained};

use crate::telling::{tell_front, tell_of_nothing};
use history_file::HISTORY_LIMIT;
use night_command::explaining_command::explain_read;
use program_streams::{Input, InputFault, Report, read_all};
use showing_command::judging_commands::{
    judge_read, judge_read_as_json, report_read, report_read_as_json,
};
use std::alloc::{AllocError, Global};
use std::fs::{File, OpenFile};
use std::io::{self, ErrorKind, Read};
use std::rt::Files;

/// How many bytes of a history file are read: one more than it may have.
const HISTORY_READ: u64 = HISTORY_LIMIT as u64 + 1;

/// Why a file can't be used.
#[derive(Clone, Copy)]
enum Unusable {
    /// It can't be opened or read, is a folder, or grows while it is read.
    Failed(io::Error),
    /// Memory ran out.
    NoMemory,
}

impl From<io::Error> for Unusable {
    fn from(error: io::Error) -> Unusable {
        Unusable::Failed(error)
    }
}

/// A file as an input, which keeps why a read failed.
#[derive(Drop)]
struct FileInput<F> {
    file: F,
    failure: Option<io::Error>,
}

impl<F: Read> Input for FileInput<F> {
    fn read(&mut self, buf: &mut [u8]) -> io::Result<usize> {
        match self.file.read(buf) {
            Ok(count) => Ok(count),
            Err(error) => {
                self.failure = Some(error);
                Err(error)
            }
        }
    }
}

/// The bytes of a file that is open, of which so many are read at most.
fn bytes_of<F: Read + Drop>(alloc: Global, file: F, limit: u64) -> Result<Vec<u8>, Unusable> {
    let mut input = FileInput {
        file: file.take(limit),
        failure: None,
    };
    match read_all(alloc, &mut input) {
        Ok(bytes) => Ok(bytes),
        Err(InputFault::NoMemory) => Err(Unusable::NoMemory),
        Err(InputFault::Unreadable) => {
            let endless = io::Error::other("it takes too many reads");
            Err(Unusable::Failed(input.failure.unwrap_or(endless)))
        }
    }
}

/// The bytes of the file at a path. Of a regular file no more is read than it had when it was opened, and one byte, by which one that has
/// grown is known; and of any file no more than `most`.
fn open_bytes<R: Files + AllocGlobal>(rt: &R, path: &str, most: u64) -> Result<Vec<u8>, Unusable> {
    let file = File::open(rt, path)?;
    let metadata = file.metadata()?;
    if metadata.is_dir() {
        return Err(Unusable::Failed(io::Error::from(ErrorKind::IsADirectory)));
    }
    let length = if metadata.is_file() {
        metadata.len()
    } else {
        u64::MAX
    };
    let bytes = bytes_of(rt.alloc(), file, most.min(length.saturating_add(1)))?;
    if bytes.len() as u64 > length {
        return Err(Unusable::Failed(io::Error::other("it grows while it is read")));
    }
    Ok(bytes)
}

/// The bytes of a file, or none where it can't be opened or read, is a folder, or grows while it is read: then standard error says which
/// file it is, and why.
///
/// No clause says which file is opened.
fn read_file<R: Files + AllocGlobal + Eprint>(
    rt: &R,
    path: &str,
    most: u64,
) -> Result<Option<Vec<u8>>, AllocError> {
    match open_bytes(rt, path, most) {
        Ok(bytes) => Ok(Some(bytes)),
        Err(Unusable::Failed(error)) => {
            let _ = eprintln!(rt; "nfsbench: {path}: {error}");
            Ok(None)
        }
        Err(Unusable::NoMemory) => Err(AllocError),
    }
}

/// The bytes of a history file, or none where it can't be read. Standard error says why not, and what a file that begins otherwise isn't.
pub(crate) fn read_history_file<R: Files + AllocGlobal + Eprint>(
    rt: &R,
    path: &str,
) -> Result<Option<Vec<u8>>, AllocError> {
    match read_file(rt, path, HISTORY_READ)? {
        Some(bytes) => {
            tell_front(rt, path, bytes.as_slice());
            Ok(Some(bytes))
        }
        None => Ok(None),
    }
}

/// The bytes of a certificate's text, or none where it can't be read.
pub(crate) fn read_certificate_file<R: Files + AllocGlobal + Eprint>(
    rt: &R,
    path: &str,
) -> Result<Option<Vec<u8>>, AllocError> {
    read_file(rt, path, u64::MAX)
}

/// How many bytes of a run's text are read. It has at most 10,000 lines of less than 200 bytes, so the first bad line of a longer one begins in these.
const PLAN_READ: u64 = 2_097_152;

/// The bytes of a run's text, or none where it can't be read.
pub(crate) fn read_plan_file<R: Files + AllocGlobal + Eprint>(
    rt: &R,
    path: &str,
) -> Result<Option<Vec<u8>>, AllocError> {
    read_file(rt, path, PLAN_READ)
}

/// What is said of the files at two paths. Both are read, in this order, before anything is judged.
pub(crate) fn check_paths<R: Files + AllocGlobal + Eprint>(
    rt: &R,
    history: &str,
    certificate: &str,
) -> Result<Report, AllocError>
    // The answer is what is said of what was read.
    ensures said { IfOk result (λ report. (history_read : Option (List ℕ)) × (certificate_read : Option (List ℕ))
        × IsSaidOfRead history_read certificate_read report.status report.line) }
{
    let seen = read_history_file(rt, history)?;
    let text = read_certificate_file(rt, certificate)?;
    let report = judge_read(rt.alloc(), seen.as_deref(), text.as_deref())?;
    tell_of_nothing(rt, history, text.as_deref(), &report);
    Ok(report)
}

/// What is reported of the files at two paths. Both are read, in this order, before anything is judged.
pub(crate) fn report_paths<R: Files + AllocGlobal + Eprint>(
    rt: &R,
    history: &str,
    certificate: &str,
) -> Result<Report, AllocError>
    // The answer is what is reported of what was read.
    ensures said { IfOk result (λ report. (history_read : Option (List ℕ)) × (certificate_read : Option (List ℕ))
        × IsReportedOfRead history_read certificate_read report.status report.line) }
{
    let seen = read_history_file(rt, history)?;
    let text = read_certificate_file(rt, certificate)?;
    let report = report_read(rt.alloc(), seen.as_deref(), text.as_deref())?;
    tell_of_nothing(rt, history, text.as_deref(), &report);
    Ok(report)
}

/// What is said of the files at two paths, as [`check_paths`], but as a JSON object.
pub(crate) fn check_paths_as_json<R: Files + AllocGlobal + Eprint>(
    rt: &R,
    history: &str,
    certificate: &str,
) -> Result<Report, AllocError>
    // The status is that of the verdict on what was read.
    ensures said { IfOk result (λ report. (history_read : Option (List ℕ)) × (certificate_read : Option (List ℕ))
        × HasStatusOfRead history_read certificate_read report.status) }
{
    let seen = read_history_file(rt, history)?;
    let text = read_certificate_file(rt, certificate)?;
    let report = judge_read_as_json(rt.alloc(), seen.as_deref(), text.as_deref())?;
    tell_of_nothing(rt, history, text.as_deref(), &report);
    Ok(report)
}

/// What is reported of the files at two paths, as [`report_paths`], but as a JSON object.
pub(crate) fn report_paths_as_json<R: Files + AllocGlobal + Eprint>(
    rt: &R,
    history: &str,
    certificate: &str,
) -> Result<Report, AllocError>
    // The status is that of the verdict on what was read.
    ensures said { IfOk result (λ report. (history_read : Option (List ℕ)) × (certificate_read : Option (List ℕ))
        × HasStatusOfRead history_read certificate_read report.status) }
{
    let seen = read_history_file(rt, history)?;
    let text = read_certificate_file(rt, certificate)?;
    let report = report_read_as_json(rt.alloc(), seen.as_deref(), text.as_deref())?;
    tell_of_nothing(rt, history, text.as_deref(), &report);
    Ok(report)
}

/// What is said of the files at two paths, and behind a no its reason. Both are read, in this order, before anything is judged.
pub(crate) fn explain_paths<R: Files + AllocGlobal + Eprint>(
    rt: &R,
    history: &str,
    certificate: &str,
    is_json: bool,
) -> Result<Report, AllocError>
    // It begins with what is said of what was read.
    ensures said { is_json ≡ false → IfOk result (λ report. (history_read : Option (List ℕ)) × (certificate_read : Option (List ℕ))
        × IsExplained history_read certificate_read report.status report.line) }
    // As an object too, the status is that of what is said of what was read.
    ensures object { IfOk result (λ report. (history_read : Option (List ℕ)) × (certificate_read : Option (List ℕ))
        × (line : List ℕ) × IsSaidOfRead history_read certificate_read report.status line) }
{
    let history = read_history_file(rt, history)?;
    let certificate = read_file(rt, certificate, u64::MAX)?;
    explain_read(
        rt.alloc(),
        history.as_deref(),
        certificate.as_deref(),
        is_json,
    )
}
