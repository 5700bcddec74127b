//! The command `draw`.

ghost use Rattle.std.specs.Prelude.{◌≡◌, ◌⊎◌, ◌<◌, ℕ, List, IfOk};
ghost use Rattle.std.specs.Option.{option_copied};
ghost use Rattle.std.specs.Io.KnownBytes.{Appends};
ghost use Rattle.history_picture.specs.Pages.{IsPage};
ghost use Rattle.history_picture.specs.Reading.{HasOwnTags};
ghost use Rattle.judging_commands.specs.Report.{line_of, status_of};
ghost use Rattle.nfs_history.specs.declared.fault.HistoryFault.{HistoryFault};
ghost use Rattle.nfs_history.specs.FirstFault.{FirstFault};
ghost use Rattle.program_streams.specs.Told.{Tells, memory_line};
ghost use Rattle.witness_check.specs.declared.verdict.FileVerdict.{FileVerdict};
ghost use Rattle.drawing_command.specs.Stops.{IsReportOf, IsTold, IsVerdictOn};

use crate::draw_words::DrawRequest;
use crate::pages::{Absent, Stop, page_of};
use judging_commands::verdict_report;
use program_streams::{Output, Report, line_of, tell, tell_answer};
use std::alloc::{AllocError, Global};

/// What is said of what isn't there.
fn absent_report(alloc: Global, absent: Absent) -> Result<Report, AllocError>
    ensures { IfOk result (λ report. report.status ≡ 2) }
{
    match absent {
        Absent::Call(call) => Ok(Report::new(2, line_of(alloc, "refused: no call ", &call)?)),
        Absent::Event(event) => Ok(Report::new(2, line_of(alloc, "refused: no event ", &event)?)),
        Absent::Events => Report::refused(alloc, "the last event is ahead of the first"),
        Absent::Memory => Err(AllocError),
    }
}

/// What is said where there is no page.
fn stop_report(alloc: Global, stop: Stop) -> Result<Report, AllocError>
    ensures { IfOk result (IsReportOf stop) }
{
    match stop {
        Stop::Verdict(verdict) => verdict_report(alloc, verdict),
        Stop::Absent(absent) => absent_report(alloc, absent),
    }
}

/// Says why there is no page.
fn tell_stop<O: Output>(alloc: Global, stop: Stop, output: &mut O) -> u8
    ensures { IsTold stop result (O.contents output.old) (O.contents output.new) }
{
    tell_answer(output, stop_report(alloc, stop))
}

/// Writes a page of HTML with a picture of a history, as [`picture_page`](history_picture::picture_page), and gives the exit status: 0
/// where the page is written, 3 for want of memory. Where a file can't be read, or the certificate is no plan of the history's calls, it
/// says what `check` says, with its status. What is asked for and isn't there is refused, with status 2, as a write that failed.
pub fn draw_history<O: Output>(
    alloc: Global,
    request: &DrawRequest<'_>,
    history: &[u8],
    certificate: Option<&[u8]>,
    output: &mut O,
) -> u8
    // With status 0 that is a page, in which a browser reads no tags but the program's own.
    ensures page { result ≡ 0 → (page : List ℕ) × IsPage page × HasOwnTags page
        × Appends (O.contents output.old) (O.contents output.new) page }
    // With status 1 it is the verdict on the two files.
    ensures no { result ≡ 1 → (verdict : FileVerdict) × IsVerdictOn history.now (option_copied certificate.entry) verdict
        × (status_of verdict ≡ 1) × Appends (O.contents output.old) (O.contents output.new) (line_of verdict) }
    // Bytes that are no history file are refused, memory aside.
    ensures refused { (fault : HistoryFault) → FirstFault history.now fault → (result ≡ 2)
        ⊎ Tells result (O.contents output.old) (O.contents output.new) 3 memory_line }
    ensures memory_line { result ≡ 3 → Appends (O.contents output.old) (O.contents output.new) memory_line }
    ensures known { result < 4 }
{
    match page_of(alloc, request, history, certificate) {
        Ok(page) => tell(output, page.as_slice(), 0),
        Err(stop) => tell_stop(alloc, stop, output),
    }
}
