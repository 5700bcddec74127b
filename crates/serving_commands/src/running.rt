//! Plans that are run.

ghost use Rattle.std.specs.Prelude.{◌≡◌, ◌⊎◌, ℕ, IfOk, IsErrAnd};
ghost use Rattle.plan_text.specs.BadLine.{IsBadLine};
ghost use Rattle.serving_commands.specs.Recording.{IsRecording};
ghost use Rattle.serving_commands.specs.Told.{IsBadPlan};

use crate::beginning::Beginning;
use crate::fault::RunFault;
use crate::outputs::Outputs;
use crate::recorded::{RunTexts, record_closed};
use crate::words::RunRequest;
use crash_harness::run_plan_from;
use plan_text::{Plan, read_plan};
use recording_command::RecordingRuntime;
use std::alloc::Global;
use std::fs::File;
use std::rt::Files;
use std::sync::Wait;
use std::thread::Threads;

/// The plan of a text.
fn plan_of(alloc: Global, text: &[u8]) -> Result<Plan, RunFault>
    ensures { (k : ℕ) → IsBadLine text.now k → IsErrAnd result (IsBadPlan k) }
{
    match read_plan(alloc, text) {
        Ok(plan) => Ok(plan),
        Err(fault) => Err(RunFault::from(fault)),
    }
}

/// Runs a plan over a server that begins so, and gives what the server recorded.
fn record_plan<R: Threads + Wait + Sync + AllocGlobal>(
    rt: &R,
    beginning: Beginning,
    plan: &Plan,
) -> Result<RunTexts, RunFault>
    ensures { IfOk result IsRecording }
{
    let (profile, start) = beginning.into_parts();
    let closed = run_plan_from(rt, rt.alloc(), plan, profile, start)?;
    record_closed(rt.alloc(), closed)
}

/// Runs the plan that a text says over a server that begins so, and gives what the server recorded: the texts of the history and of its
/// certificate.
pub fn run_text<R: Threads + Wait + Sync + AllocGlobal>(
    rt: &R,
    beginning: Beginning,
    text: &[u8],
) -> Result<RunTexts, RunFault>
    // The certificate is a witness of the history.
    ensures explained { IfOk result IsRecording }
    // Of a text that is no plan the first bad line is told, memory aside.
    ensures bad_line { (k : ℕ) → IsBadLine text.now k → IsErrAnd result (IsBadPlan k) }
{
    let plan = plan_of(rt.alloc(), text)?;
    record_plan(rt, beginning, &plan)
}

/// Writes what was recorded into both files that are asked for.
fn save<R: Files<File = File> + Eprint>(
    rt: &R,
    request: &RunRequest<'_>,
    recorded: &RunTexts,
) -> Result<(), RunFault> {
    let read = [Some(request.plan), request.start];
    Outputs::create(rt, request.history, request.certificate, &read)?.write(recorded)
}

/// Runs the plan that a text says, as [`run_text`], and writes both files that are asked for.
pub fn run<R: RecordingRuntime>(
    rt: &R,
    request: &RunRequest<'_>,
    beginning: Beginning,
    text: &[u8],
) -> Result<RunTexts, RunFault>
    ensures explained { IfOk result IsRecording }
    ensures bad_line { (k : ℕ) → IsBadLine text.now k → IsErrAnd result (IsBadPlan k) }
{
    let recorded = run_text(rt, beginning, text)?;
    match save(rt, request, &recorded) {
        Ok(()) => Ok(recorded),
        Err(fault) => Err(fault),
    }
}
