//! What is said, with what is known behind it.

ghost use Rattle.std.specs.Prelude.{◌≡◌, ◌++◌, ℕ, List, false, IfOk};

use crate::behind::Behind;
use crate::objects::object_line;
use program_streams::Report;
use std::alloc::{AllocError, Global};

/// What is said, and words behind it.
fn with_words(alloc: Global, told: &Report, words: &str) -> Result<Report, AllocError>
    ensures status { IfOk result (λ report. report.status ≡ told.now.status) }
    ensures line { IfOk result (λ report. report.line ≡ told.now.line ++ words.now) }
{
    let mut line = String::from_str(alloc, told.line())?;
    line.push_str(words)?;
    Ok(Report::new(told.status(), line))
}

/// What is said as an object of JSON, with its status.
fn as_object(alloc: Global, told: &Report, behind: &Behind) -> Result<Report, AllocError>
    ensures { IfOk result (λ report. report.status ≡ told.now.status) }
{
    let status = told.status();
    Ok(Report::new(status, object_line(alloc, told, behind)?))
}

/// What is said, and what is known behind it: lines, or an object of JSON.
pub(crate) fn with_behind(
    alloc: Global,
    told: &Report,
    behind: &Behind,
    is_json: bool,
) -> Result<Report, AllocError>
    ensures status { IfOk result (λ report. report.status ≡ told.now.status) }
    ensures line { is_json ≡ false → IfOk result (λ report. (words : List ℕ) × (report.line ≡ told.now.line ++ words)) }
{
    if is_json {
        return as_object(alloc, told, behind);
    }
    // All bytes are printable.
    let words = str::from_utf8(behind.lines.as_slice()).unwrap_or("");
    with_words(alloc, told, words)
}
