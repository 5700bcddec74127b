//! What is said: a line and an exit status.

ghost use Rattle.std.specs.Prelude.{◌≡◌, ◌++◌, ◌∷◌, [], IfOk, IfSome, string_bytes};
ghost use Rattle.program_streams.specs.Told.{IsRefusal};

use std::alloc::{AllocError, Global};
use std::fmt::Display;
use std::marker::Model;

/// A line that ends in a line feed, and the exit status that goes with it.
#[derive(Drop)]
pub struct Report {
    status: u8,
    line: String,
}

impl Model for Report {
    ghost use Rattle.std.specs.Prelude.{string_bytes};
    ghost use Rattle.program_streams.specs.Told.{Answer};

    ghost Value = { Answer };

    ghost view = { λ report. record { status = report.status; line = string_bytes report.line } };
}

impl Report {
    /// A line and a status. The line is to end in its only line feed, or each of its lines in one.
    pub fn new(status: u8, line: String) -> Report
        ensures { (result.status ≡ status) × (result.line ≡ string_bytes line) }
    {
        Report { status, line }
    }

    /// The exit status.
    pub fn status(&self) -> u8
        ensures { result ≡ self.now.status }
    {
        self.status
    }

    /// The line, with its line feed; or the lines, each with its own.
    pub fn line(&self) -> &str
        ensures { result.now ≡ self.now.line }
    {
        self.line.as_str()
    }

    /// What can't be judged, for this reason.
    pub fn refused(alloc: Global, reason: &str) -> Result<Report, AllocError>
        ensures { IfOk result (λ report. IsRefusal reason.now report.status report.line) }
    {
        Ok(Report {
            status: 2,
            line: line_of(alloc, "refused: ", &reason)?,
        })
    }

    /// The same, behind these lines.
    pub fn behind(self, lines: String) -> Result<Report, AllocError>
        ensures status { IfOk result (λ report. report.status ≡ self.status) }
        ensures line { IfOk result (λ report. report.line ≡ string_bytes lines ++ self.line) }
    {
        let Report { status, line } = self;
        let mut lines = lines;
        lines.push_str(line.as_str())?;
        Ok(Report {
            status,
            line: lines,
        })
    }
}

/// The line of these words and the text.
pub fn line_of<D: Display>(alloc: Global, words: &str, told: &D) -> Result<String, AllocError>
    ensures { IfOk result (λ line. IfSome (D.output told.now) (λ text.
        string_bytes line ≡ words.now ++ text ++ 10 ∷ [])) }
{
    let text = told.to_string(alloc)?;
    format!(in alloc; "{words}{text}\n")
}
