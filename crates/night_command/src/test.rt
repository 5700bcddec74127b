//! The command `nfsbench test`.

ghost use Rattle.std.specs.Prelude.{◌≡◌, ◌<◌, ◌⊎◌, IfOk};
ghost use Rattle.std.specs.Io.KnownBytes.{Appends};
ghost use Rattle.program_streams.specs.Told.{memory_line};
ghost use Rattle.night_command.specs.Nights.{profile_asked, IsNightOrRefused};

use crate::folder::Folder;
use crate::opening::{leave, open_night};
use crate::refusal::NightRefusal;
use crate::running::{Ran, run_night};
use crate::summing::{end_report, refused_report};
use crate::words::TestRequest;
use night_eras::night_verdict::NightEnd;
use program_streams::{Input, Output, Report, tell_answer};
use recording_command::RecordingRuntime;
use std::alloc::AllocError;
use std::{fs, io};

/// How many events a history has at most.
const EVENTS: u64 = 1_000_000;

/// Whether the clients may make more events than a history has. Where seconds alone limit them, that isn't known.
fn makes_too_many(request: &TestRequest<'_>) -> bool {
    let Some(calls) = request.clients.calls else {
        return false;
    };
    let eras = u64::from(request.crashes.rounds).saturating_add(1);
    let clients = u64::from(request.clients.clients);
    let events = calls
        .saturating_mul(2)
        .saturating_add(1)
        .saturating_mul(clients)
        .saturating_mul(eras);
    events > EVENTS
}

/// Says why what is at a path can't be used.
fn tell_unusable<R: Eprint>(rt: &R, request: &TestRequest<'_>, path: &str, error: io::Error) {
    if !request.is_quiet {
        let _ = eprintln!(rt; "nfsbench: {path}: {error}");
    }
}

/// Whether the file of the orders is there, where one is named. Why it isn't is said on standard error.
fn has_orders<R: RecordingRuntime>(rt: &R, request: &TestRequest<'_>) -> bool {
    let Some(path) = request.crashes.orders else {
        return true;
    };
    match fs::metadata(rt, path) {
        Ok(_) => true,
        Err(error) => {
            tell_unusable(rt, request, path, error);
            false
        }
    }
}

/// Tells that no crash is made where none is asked for. Standard input isn't looked at then, since it may be another program's.
fn tell_of_no_crash<R: RecordingRuntime>(rt: &R, request: &TestRequest<'_>) {
    if request.crashes.rounds == 0 && !request.is_quiet {
        let _ = eprintln!(rt;
            "no crash is made, and no order is read: --rounds says how many are to come"
        );
    }
}

/// Opens a night, and has its clients call.
fn open_and_run<R: RecordingRuntime, I: Input>(
    rt: &R,
    request: &TestRequest<'_>,
    input: &mut I,
) -> Result<Ran, NightRefusal> {
    let opened = open_night(rt, request)?;
    tell_of_no_crash(rt, request);
    let ran = run_night(rt, request, opened, input)?;
    if ran.eras.end == NightEnd::Whole {
        leave(rt, request);
    }
    Ok(ran)
}

/// A night in a folder that was made for it.
fn run_in<R: RecordingRuntime, I: Input>(
    rt: &R,
    request: &TestRequest<'_>,
    folder: Folder<'_>,
    input: &mut I,
) -> Result<Report, AllocError>
    ensures known { IfOk result (λ report. report.status < 3) }
    ensures said { IfOk result (λ report. IsNightOrRefused (profile_asked request.now.is_strict) report.status) }
{
    match open_and_run(rt, request, input) {
        Ok(ran) => end_report(rt, request, &ran),
        Err(refusal) => {
            folder.remove(rt);
            refused_report(rt.alloc(), request, &refusal)
        }
    }
}

/// What is said of the night that a request asks for.
fn night_report<R: RecordingRuntime, I: Input>(
    rt: &R,
    request: &TestRequest<'_>,
    input: &mut I,
) -> Result<Report, AllocError>
    ensures known { IfOk result (λ report. report.status < 3) }
    ensures said { IfOk result (λ report. IsNightOrRefused (profile_asked request.now.is_strict) report.status) }
{
    if makes_too_many(request) {
        return refused_report(rt.alloc(), request, &NightRefusal::TooManyCalls);
    }
    if request.crashes.orders.is_some() && request.crashes.rounds == 0 {
        return refused_report(rt.alloc(), request, &NightRefusal::NoRounds);
    }
    if !has_orders(rt, request) {
        return refused_report(rt.alloc(), request, &NightRefusal::Orders);
    }
    match Folder::make(rt, request.folder) {
        Ok(folder) => run_in(rt, request, folder, input),
        Err(error) => {
            tell_unusable(rt, request, request.folder, error);
            refused_report(rt.alloc(), request, &NightRefusal::Folder(error.kind()))
        }
    }
}

/// Drives a server with clients over the crashes that the orders on the input tell of, judges what they saw, and writes it into a folder:
/// `history`, `certificate` after a yes, `report.json`, `junit.xml`, and `explanation` where the night isn't a yes. It gives the exit status:
/// 0 after `yes`, 1 after `no: ..`, 2 after `undecided: ..` and `refused: ..`, 3 if memory ran out. The last line says which it is.
///
/// No clause ties what is said to the server: sockets and threads have none. The status is that of a verdict of `night_verdict::judge_night` on
/// the bytes of a history that begins as the profile says, and on what the log of troubles has; no yes is said where a file can't be written.
pub fn run_test<R: RecordingRuntime, I: Input, O: Output>(
    rt: &R,
    request: &TestRequest<'_>,
    input: &mut I,
    output: &mut O,
) -> u8
    // Refused, out of memory, or the verdict's.
    ensures judged { (result ≡ 3) ⊎ IsNightOrRefused (profile_asked request.now.is_strict) result }
    ensures memory_line { result ≡ 3
        → Appends (O.contents output.old) (O.contents output.new) memory_line }
    ensures known { result < 4 }
{
    tell_answer(output, night_report(rt, request, input))
}
