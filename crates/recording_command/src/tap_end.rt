//! What is said of a recording.

ghost use Rattle.std.specs.Prelude.{◌≡◌, ◌⊎◌, ◌<◌, ◌++◌, IfOk, IsErr, string_bytes};
ghost use Rattle.std.specs.Io.KnownBytes.{Appends};
ghost use Rattle.program_streams.specs.Told.{memory_line};
ghost use Rattle.recording_command.specs.Tap.{IsTold, end_line, end_status, refusal_of};

use nfs_relay::Halt;
use program_streams::{Output, Report, line_of, tell_answer};
use std::alloc::{AllocError, Global};

/// How a recording ended.
#[derive(Clone, Copy)]
pub(crate) enum TapEnd {
    /// The history is written, and has so many calls.
    Written(usize),
    /// The history is written, and has so many calls; the server wasn't in health.
    Unhealthy(usize),
    BadRoot,
    CannotMount,
    NoOrders,
    /// The folder can't be a start.
    NoStart,
    /// A file that grew beside an earlier recording is there.
    PartStands,
    CannotListen,
    CannotConnect,
    NoThread,
    CannotWrite,
    NoMemory,
}

/// Why nothing is written where the relay halted so.
pub(crate) fn refusal_of(halt: Option<Halt>) -> Option<TapEnd>
    ensures { result ≡ refusal_of halt }
{
    match halt {
        Some(Halt::CannotConnect) => Some(TapEnd::CannotConnect),
        Some(Halt::NoThread) => Some(TapEnd::NoThread),
        _ => None,
    }
}

/// What is said of a recording that ended so; of one that wants memory, that is the answer.
fn report_of(alloc: Global, end: TapEnd) -> Result<Report, AllocError>
    ensures said { IfOk result (λ report. (report.status ≡ end_status end) × (report.line ≡ end_line end)) }
    ensures memory { end ≡ TapEnd.NoMemory → IsErr result }
{
    match end {
        TapEnd::Written(calls) => Ok(Report::new(0, line_of(alloc, "calls ", &calls)?)),
        TapEnd::Unhealthy(calls) => Ok(Report::new(1, line_of(alloc, "calls ", &calls)?)),
        TapEnd::BadRoot => Report::refused(alloc, "bad root"),
        TapEnd::CannotMount => Report::refused(alloc, "cannot mount"),
        TapEnd::NoOrders => Report::refused(alloc, "cannot read orders"),
        TapEnd::NoStart => Report::refused(alloc, "no start"),
        TapEnd::PartStands => Report::refused(
            alloc,
            "a .part of an earlier recording is there: mend it, or remove it",
        ),
        TapEnd::CannotListen => Report::refused(alloc, "cannot listen"),
        TapEnd::CannotConnect => Report::refused(alloc, "cannot connect"),
        TapEnd::NoThread => Report::refused(alloc, "no thread"),
        TapEnd::CannotWrite => Report::refused(alloc, "cannot write"),
        TapEnd::NoMemory => Err(AllocError),
    }
}

/// What is said of a recording that ended so, behind these lines.
fn report_behind(alloc: Global, end: TapEnd, lines: String) -> Result<Report, AllocError>
    ensures said { IfOk result (λ report. (report.status ≡ end_status end) × (report.line ≡ string_bytes lines ++ end_line end)) }
    ensures memory { end ≡ TapEnd.NoMemory → IsErr result }
{
    report_of(alloc, end)?.behind(lines)
}

/// Says how a recording ended, behind these lines, and gives the exit status.
pub(crate) fn tell_end<O: Output>(alloc: Global, output: &mut O, end: TapEnd, lines: String) -> u8
    ensures told { IsTold end (string_bytes lines) result (O.contents output.old) (O.contents output.new) }
    ensures memory_line { result ≡ 3
        → Appends (O.contents output.old) (O.contents output.new) memory_line }
    ensures known { result < 4 }
{
    tell_answer(output, report_behind(alloc, end, lines))
}
