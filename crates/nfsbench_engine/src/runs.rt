//! What is said of runs of the bundled server.

ghost use Rattle.std.specs.Prelude.{◌≡◌, ◌⊎◌, ◌<◌, ℕ, true, false, IfOk, OnErr, string_bytes};
ghost use Rattle.std.specs.Io.KnownBytes.{Appends};
ghost use Rattle.program_streams.specs.Told.{Tells, memory_line};
ghost use Rattle.serving_commands.specs.Recording.{IsRecording};
ghost use Rattle.nfsbench_engine.specs.Ran.{IsSaidOfRan, IsSaidOfRun, IsSaidOfServed, IsStatusOfEnds, IsYesBehind, MayTellOf, run_lines};

use crate::files::{read_history_file, read_plan_file};
use program_streams::{Output, Report, tell, tell_answer, tell_want_of_memory};
use recording_command::RecordingRuntime;
use serving_commands::{
    Beginning, Counts, RunFault, RunRequest, RunTexts, ServeRequest, fault_report, run, serve,
};
use showing_command::judging_commands::{judge_files, put_number};
use std::alloc::{AllocError, Global};
use std::rt::Files;

/// The lines of what a run comes to in numbers.
fn run_lines(alloc: Global, counts: &Counts) -> Result<String, AllocError>
    ensures { IfOk result (λ lines. string_bytes lines ≡ run_lines counts.now) }
{
    let mut lines = String::new(alloc);
    put_number(alloc, &mut lines, "eras", counts.eras)?;
    put_number(alloc, &mut lines, "calls", counts.calls)?;
    put_number(alloc, &mut lines, "answered", counts.answered)?;
    put_number(alloc, &mut lines, "lost", counts.lost)?;
    Ok(lines)
}

/// What is said of a run: what it comes to in numbers, and the verdict on the two texts that it wrote.
pub fn judge_run(alloc: Global, recorded: &RunTexts) -> Result<Report, AllocError>
    ensures exact { IfOk result (λ report. IsSaidOfRun recorded.now report.status report.line) }
    // Of the texts of a history and of a witness of it that is a yes.
    ensures yes { IsRecording recorded.now → IfOk result (λ report.
        IsYesBehind (run_lines recorded.now.counts) report.status report.line) }
{
    let lines = run_lines(alloc, &recorded.counts)?;
    let history = recorded.history.as_slice();
    judge_files(alloc, history, recorded.certificate.as_slice())?.behind(lines)
}

/// What is said of a run that ended so.
fn run_answer(alloc: Global, ran: Result<RunTexts, RunFault>) -> Result<Report, AllocError>
    requires { IfOk ran IsRecording }
    ensures said { IfOk result (λ report. IsSaidOfRan ran report.status report.line) }
    ensures known { IfOk result (λ report. report.status < 3) }
{
    match ran {
        Ok(recorded) => judge_run(alloc, &recorded),
        Err(fault) => fault_report(alloc, fault),
    }
}

/// What is said of connections that were served: the verdict alone, which is a yes.
fn serve_answer(alloc: Global, served: Result<RunTexts, RunFault>) -> Result<Report, AllocError>
    requires { IfOk served IsRecording }
    ensures said { IfOk result (λ report. IsSaidOfServed served report.status report.line) }
    ensures known { IfOk result (λ report. report.status < 3) }
{
    match served {
        Ok(recorded) => {
            let history = recorded.history.as_slice();
            judge_files(alloc, history, recorded.certificate.as_slice())
        }
        Err(fault) => fault_report(alloc, fault),
    }
}

/// Says what is said, or that memory ran out.
pub(crate) fn tell_known<O: Output>(output: &mut O, answer: Result<Report, AllocError>) -> u8
    requires { IfOk answer (λ report. report.status < 3) }
    ensures report { IfOk answer (λ report. (result ≡ 2)
        ⊎ Tells result (O.contents output.old) (O.contents output.new) report.status report.line) }
    ensures memory { OnErr answer ((result ≡ 2)
        ⊎ Tells result (O.contents output.old) (O.contents output.new) 3 memory_line) }
    ensures memory_line { result ≡ 3
        → Appends (O.contents output.old) (O.contents output.new) memory_line }
    ensures known { result < 4 }
{
    tell_answer(output, answer)
}

/// Says how a run ended.
fn tell_run<O: Output>(alloc: Global, output: &mut O, ran: Result<RunTexts, RunFault>) -> u8
    requires { IfOk ran IsRecording }
    ensures told { MayTellOf IsSaidOfRan result (O.contents output.old) (O.contents output.new) }
    ensures memory_line { result ≡ 3
        → Appends (O.contents output.old) (O.contents output.new) memory_line }
    ensures known { result < 4 }
{
    let answer = run_answer(alloc, ran);
    tell_known(output, answer)
}

/// Says how the serving of connections ended.
fn tell_served<O: Output>(alloc: Global, output: &mut O, served: Result<RunTexts, RunFault>) -> u8
    requires { IfOk served IsRecording }
    ensures told { MayTellOf IsSaidOfServed result (O.contents output.old) (O.contents output.new) }
    ensures memory_line { result ≡ 3
        → Appends (O.contents output.old) (O.contents output.new) memory_line }
    ensures known { result < 4 }
{
    let answer = serve_answer(alloc, served);
    tell_known(output, answer)
}

/// What the history at a path begins with; without a path, nothing under the plain profile.
fn beginning_at<R: Files + AllocGlobal + Eprint>(
    rt: &R,
    path: Option<&str>,
) -> Result<Beginning, RunFault> {
    let Some(path) = path else {
        return Ok(Beginning::empty(rt.alloc()));
    };
    match read_history_file(rt, path)? {
        Some(file) => Beginning::of_file(rt.alloc(), file.as_slice()),
        None => Err(RunFault::CannotReadStart),
    }
}

/// Runs the plan of this text from the start that the words name, as [`run`].
fn run_from_start<R: RecordingRuntime>(
    rt: &R,
    request: &RunRequest<'_>,
    text: &[u8],
) -> Result<RunTexts, RunFault>
    ensures { IfOk result IsRecording }
{
    let beginning = beginning_at(rt, request.start)?;
    run(rt, request, beginning, text)
}

/// Serves connections from the start that the words name, as [`serve`].
fn serve_from_start<R: RecordingRuntime>(
    rt: &R,
    request: &ServeRequest<'_>,
) -> Result<(RunTexts, u64), RunFault>
    ensures { IfOk result (λ served. IsRecording served.0) }
{
    let beginning = beginning_at(rt, request.start)?;
    serve(rt, request, beginning)
}

/// Runs the plan at a path, writes its history and certificate, and says what they come to.
pub(crate) fn run_path<R: RecordingRuntime, O: Output>(
    rt: &R,
    request: &RunRequest<'_>,
    output: &mut O,
) -> u8
    ensures told { MayTellOf IsSaidOfRan result (O.contents output.old) (O.contents output.new) }
    ensures memory_line { result ≡ 3
        → Appends (O.contents output.old) (O.contents output.new) memory_line }
    ensures known { result < 4 }
{
    match read_plan_file(rt, request.plan) {
        Ok(Some(text)) => tell_run(
            rt.alloc(),
            output,
            run_from_start(rt, request, text.as_slice()),
        ),
        Ok(None) => tell(output, b"refused: unreadable plan\n", 2),
        Err(AllocError) => tell_want_of_memory(output),
    }
}

/// The status where so many connections ended otherwise than by a close: with `--strict-connections` no yes.
fn status_of_ends(request: &ServeRequest<'_>, ended_otherwise: u64, judged: u8) -> u8
    ensures plain { request.now.needs_closes ≡ false → result ≡ judged }
    ensures closed { ended_otherwise ≡ 0 → result ≡ judged }
    ensures strict { IsStatusOfEnds judged result }
    ensures no_yes { request.now.needs_closes ≡ true → 0 < ended_otherwise → 0 < result }
{
    if request.needs_closes && ended_otherwise > 0 && judged == 0 {
        1
    } else {
        judged
    }
}

/// Serves connections, writes their history and certificate, and says the verdict on both. The status is that of the verdict; with
/// `--strict-connections` it is 1 after a yes where a connection ended otherwise than by a close.
pub(crate) fn serve_words<R: RecordingRuntime, O: Output>(
    rt: &R,
    request: &ServeRequest<'_>,
    output: &mut O,
) -> u8
    ensures told { request.now.needs_closes ≡ false
        → MayTellOf IsSaidOfServed result (O.contents output.old) (O.contents output.new) }
    ensures strict { (judged : ℕ) × IsStatusOfEnds judged result
        × MayTellOf IsSaidOfServed judged (O.contents output.old) (O.contents output.new) }
    ensures memory_line { result ≡ 3
        → Appends (O.contents output.old) (O.contents output.new) memory_line }
    ensures known { result < 4 }
{
    match serve_from_start(rt, request) {
        Ok((recorded, ended_otherwise)) => {
            let judged = tell_served(rt.alloc(), output, Ok(recorded));
            status_of_ends(request, ended_otherwise, judged)
        }
        Err(fault) => tell_served(rt.alloc(), output, Err(fault)),
    }
}
