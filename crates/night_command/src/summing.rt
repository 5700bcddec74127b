//! What a night comes to is judged, written and said.

ghost use Rattle.std.specs.Prelude.{◌≡◌, ◌<◌, ◌⊎◌, ℕ, Bool, List, IfOk};
ghost use Rattle.night_eras.specs.night_verdict_specs.Words.{night_status};
ghost use Rattle.night_command.specs.Status.{told_status};
ghost use Rattle.night_command.specs.Nights.{profile_asked, IsJudged, IsStatusOf, IsNight};

use crate::files::{Noted, findings_of, numbers_told, reason_lines, request_told, write_files};
use crate::folder::Folder;
use crate::opening::profile_of;
use crate::refusal::NightRefusal;
use crate::running::Ran;
use crate::why::Grounds;
use crate::words::TestRequest;
use explaining_command::deciding_command::{Effort, FileDecision, is_watched};
use failure_causes::{CauseCounts, count_causes};
use history_file::WriteFault;
use json_reports::refusal_line;
use night_eras::ErasEnd;
use night_eras::night_verdict::{
    Judgement, NightEnd, NightFacts, NightVerdict, Reasons, judge_night, night_history, reasons_of,
    verdict_report,
};
use night_lanes::{Counts, Troubles};
use night_report::{NightReport, Numbers, json_line};
use program_streams::{Report, line_of};
use recording_command::RecordingRuntime;
use std::alloc::{AllocError, Global};

/// What is said where there was no night.
pub(crate) fn refused_report(
    alloc: Global,
    request: &TestRequest<'_>,
    refusal: &NightRefusal,
) -> Result<Report, AllocError>
    ensures { IfOk result (λ report. report.status ≡ 2) }
{
    let reason = refusal.reason(alloc)?;
    if request.is_json {
        return Ok(Report::new(2, refusal_line(alloc, reason.as_str())?));
    }
    Ok(Report::new(2, line_of(alloc, "refused: ", &reason.as_str())?))
}

/// How much it may cost to judge a night. At a terminal it says how far it is.
fn effort_of<R: RecordingRuntime>(rt: &R, request: &TestRequest<'_>) -> Effort {
    Effort {
        states: request.limits.states,
        seconds: request.limits.search_seconds,
        is_told: is_watched(rt),
    }
}

/// What a night comes to, in words and numbers.
#[derive(Drop)]
struct Told {
    judged: Judgement,
    noted: Noted,
    reasons: Reasons,
    /// The same as lines.
    lines: Vec<String>,
    /// The last line, and the status.
    last: Report,
    /// Why calls failed, where an order explains it.
    causes: Option<CauseCounts>,
}

/// Why calls of a history failed, by the order that was found, if one was.
fn causes_of(
    alloc: Global,
    history: &[u8],
    judged: &Judgement,
) -> Result<Option<CauseCounts>, AllocError> {
    match &judged.decision {
        FileDecision::Yes(certificate) => count_causes(alloc, history, certificate.as_slice()),
        _ => Ok(None),
    }
}

/// The words of a night that was judged.
fn told_of(
    alloc: Global,
    facts: &NightFacts<'_>,
    judged: Judgement,
    noted: Noted,
    causes: Option<CauseCounts>,
) -> Result<Told, AllocError>
    ensures known { IfOk result (λ told. told.last.status < 3) }
    ensures status { IfOk result (λ told. told.last.status ≡ night_status told.judged.verdict) }
    ensures same { IfOk result (λ told. told.judged ≡ judged) }
{
    let reasons = reasons_of(alloc, facts, &judged)?;
    let lines = reason_lines(alloc, &reasons)?;
    let last = verdict_report(alloc, facts, &judged)?;
    Ok(Told {
        judged,
        noted,
        reasons,
        lines,
        last,
        causes,
    })
}

/// The lines before the last one.
fn number_lines(alloc: Global, report: &NightReport<'_>) -> Result<String, AllocError> {
    let Numbers {
        eras,
        calls,
        judged_and_answered,
        troubles,
        ..
    } = report.numbers;
    format!(in alloc;
        "eras {eras}\ncalls {calls}\nanswered {judged_and_answered}\ntroubles {troubles}\n"
    )
}

/// What is said of a night whose files are written, or not: no yes where one isn't.
fn said_of(
    alloc: Global,
    request: &TestRequest<'_>,
    verdict: NightVerdict,
    report: &NightReport<'_>,
    is_written: bool,
) -> Result<Report, AllocError>
    requires known { report.now.status < 3 }
    requires status { report.now.status ≡ night_status verdict }
    ensures known { IfOk result (λ report. report.status < 3) }
    ensures status { IfOk result (λ report. report.status ≡ told_status is_written verdict) }
{
    if !is_written && !matches!(verdict, NightVerdict::No(_)) {
        return refused_report(alloc, request, &NightRefusal::CannotWrite);
    }
    if request.is_json {
        return Ok(Report::new(report.status, json_line(alloc, report)?));
    }
    let last = line_of(alloc, "", &report.line)?;
    Report::new(report.status, last).behind(number_lines(alloc, report)?)
}

/// Writes the files of a night that was judged, and gives its lines and its status.
fn written_report<'n, R: RecordingRuntime>(
    rt: &'n R,
    request: &'n TestRequest<'n>,
    ran: &'n Ran,
    told: &'n Told,
    counts: &'n Counts,
    troubles: &'n Troubles,
    history: &'n [u8],
    is_kept: bool,
) -> Result<Report, AllocError>
    requires known { told.now.last.status < 3 }
    requires status { told.now.last.status ≡ night_status told.now.judged.verdict }
    ensures known { IfOk result (λ report. report.status < 3) }
    ensures said { IfOk result (λ report. (is_written : Bool) × (report.status ≡ told_status is_written told.now.judged.verdict)) }
{
    let (health, order, enough) = findings_of(&told.judged, &told.reasons);
    let report = NightReport {
        folder: request.folder,
        request: request_told(request),
        numbers: numbers_told(ran, told.noted, troubles, &told.judged),
        counts,
        causes: told.causes,
        troubles,
        status: told.last.status(),
        line: told.last.line().trim_end(),
        reasons: told.lines.as_slice(),
        health,
        order,
        enough,
    };
    let grounds = Grounds {
        history,
        decision: &told.judged.decision,
        effort: effort_of(rt, request),
    };
    let verdict = told.judged.verdict;
    let is_written = write_files(rt, request.folder, grounds, verdict, &report)?;
    said_of(rt.alloc(), request, verdict, &report, is_kept && is_written)
}

/// What is known of a night. Where its orders went astray or this side hindered it that is told, and not that too little was done.
fn facts_of<'t>(
    request: &TestRequest<'_>,
    eras: ErasEnd,
    troubles: &'t Troubles,
    noted: Noted,
) -> NightFacts<'t>
    ensures hindered { result.troubles.now ≡ troubles.now }
    ensures ended { result.end ≡ eras.end }
{
    let is_undisturbed = eras.end == NightEnd::Whole && troubles.kept().is_empty();
    let (wanted, left_aside, unread) = if is_undisturbed {
        let wanted = request.wanted().saturating_add(noted.walked);
        (wanted, noted.left_aside, eras.unread)
    } else {
        (0, None, 0)
    };
    NightFacts {
        troubles,
        end: eras.end,
        at_least: request.at_least().saturating_add(noted.walked),
        wanted,
        walked: noted.walked,
        left_aside,
        unread,
    }
}

/// Judges a night by the bytes of its history.
fn judged<R: RecordingRuntime>(
    rt: &R,
    request: &TestRequest<'_>,
    eras: ErasEnd,
    troubles: &Troubles,
    noted: Noted,
    history: &[u8],
) -> Result<Told, AllocError>
    ensures known { IfOk result (λ told. told.last.status < 3) }
    ensures status { IfOk result (λ told. told.last.status ≡ night_status told.judged.verdict) }
    ensures judged { IfOk result (λ told. IsJudged eras.end troubles.now history.now told.judged.verdict) }
{
    let facts = facts_of(request, eras, troubles, noted);
    let judged = judge_night(rt, &facts, history, effort_of(rt, request))?;
    let causes = causes_of(rt.alloc(), history, &judged)?;
    told_of(rt.alloc(), &facts, judged, noted, causes)
}

/// Judges a night by the bytes of its history, writes its files, and gives its lines and its status.
fn judged_report<R: RecordingRuntime>(
    rt: &R,
    request: &TestRequest<'_>,
    ran: &Ran,
    noted: Noted,
    history: &[u8],
) -> Result<Report, AllocError>
    ensures known { IfOk result (λ report. report.status < 3) }
    ensures said { IfOk result (λ report. IsStatusOf ran.now.eras.end history.now report.status) }
{
    // What was recorded is kept also where judging it runs out of memory.
    let folder = Folder {
        path: request.folder,
    };
    let is_kept = folder.write(rt, "history", history)?;
    let troubles = ran.night.troubles().lock(rt);
    let counts = ran.night.counts().lock(rt);
    let told = judged(rt, request, ran.eras, &troubles, noted, history)?;
    written_report(
        rt, request, ran, &told, &counts, &troubles, history, is_kept,
    )
}

/// How much the log of a night has.
fn noted_of<R: RecordingRuntime>(rt: &R, ran: &Ran) -> Result<Noted, AllocError> {
    let log = ran.night.log().lock(rt);
    Noted::in_log(rt.alloc(), &log)
}

/// Judges a night, writes its files, and gives its lines and its status.
pub(crate) fn end_report<R: RecordingRuntime>(
    rt: &R,
    request: &TestRequest<'_>,
    ran: &Ran,
) -> Result<Report, AllocError>
    ensures known { IfOk result (λ report. report.status < 3) }
    // The status is that of the verdict on the bytes of a history that begins with what the walk found.
    ensures said { IfOk result (λ report. (report.status ≡ 2) ⊎ ((root : List ℕ)
        × IsNight ran.now.eras.end (record { root = root; start = ran.now.start; profile = profile_asked request.now.is_strict }) report.status)) }
{
    let noted = noted_of(rt, ran)?;
    let log = ran.night.log().lock(rt);
    let history = night_history(rt.alloc(), profile_of(request), &ran.start, &log);
    drop(log);
    match history {
        Ok(history) => judged_report(rt, request, ran, noted, history.as_slice()),
        Err(WriteFault::TooLarge) => {
            refused_report(rt.alloc(), request, &NightRefusal::HistoryTooLarge)
        }
        Err(WriteFault::NoMemory) => Err(AllocError),
    }
}
