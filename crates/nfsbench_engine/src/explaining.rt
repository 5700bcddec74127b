//! Explanations of the files at paths.

ghost use Rattle.std.specs.Prelude.{◌≡◌, ◌<◌, IfOk};
ghost use Rattle.std.specs.Io.KnownBytes.{Appends};
ghost use Rattle.program_streams.specs.Told.{memory_line};

use crate::files::{explain_paths, read_history_file};
use crate::runs::tell_known;
use deciding_command::{Effort, is_watched};
use night_command::explaining_command::{ExplainRequest, explain_history, explain_unreadable};
use program_streams::{Output, Report};
use recording_command::RecordingRuntime;
use std::alloc::AllocError;

/// What is said of a history alone.
fn explain_alone<R: RecordingRuntime>(
    rt: &R,
    request: &ExplainRequest<'_>,
) -> Result<Report, AllocError>
    ensures { IfOk result (λ report. report.status < 3) }
{
    let effort = Effort {
        is_told: is_watched(rt),
        ..request.effort
    };
    match read_history_file(rt, request.history)? {
        Some(bytes) => explain_history(rt, bytes.as_slice(), effort, request.is_json),
        None => explain_unreadable(rt.alloc(), request.is_json),
    }
}

/// What is said of what is asked for.
#[tactic(auto, using(crate::proofs::Objects::known_explained))]
fn explained<R: RecordingRuntime>(
    rt: &R,
    request: &ExplainRequest<'_>,
) -> Result<Report, AllocError>
    ensures { IfOk result (λ report. report.status < 3) }
{
    match request.certificate {
        Some(certificate) => explain_paths(rt, request.history, certificate, request.is_json),
        None => explain_alone(rt, request),
    }
}

/// Explains the verdict on the files at two paths, or what is decided of one.
pub(crate) fn explain_path<R: RecordingRuntime, O: Output>(
    rt: &R,
    request: &ExplainRequest<'_>,
    output: &mut O,
) -> u8
    ensures memory_line { result ≡ 3
        → Appends (O.contents output.old) (O.contents output.new) memory_line }
    ensures known { result < 4 }
{
    tell_known(output, explained(rt, request))
}
