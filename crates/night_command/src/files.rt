//! The files of a night, and its report.

use crate::aside::left_aside_in;
use crate::folder::Folder;
use crate::opening::WALK_LANE;
use crate::running::Ran;
use crate::why::{Grounds, write_why};
use crate::words::TestRequest;
use explaining_command::deciding_command::FileDecision;
use history_file::Event;
use nfs_tap::TapLog;
use night_eras::night_verdict::{Judgement, LeftAside, NightVerdict, Reasons};
use night_lanes::Troubles;
use night_report::{Finding, NightReport, Numbers, Request, junit_xml, report_json};
use recording_command::RecordingRuntime;
use std::alloc::{AllocError, Global};

/// What was asked for.
pub(crate) fn request_told<'a>(request: &TestRequest<'a>) -> Request<'a> {
    let words = request.clients;
    Request {
        seed: words.seed,
        clients: u64::from(words.clients),
        calls: words.calls_each(),
        depth: u64::from(words.depth),
        mix: words.mix,
        uid: words.credential.uid,
        gid: words.credential.gid,
        rounds: u64::from(request.crashes.rounds),
        profile: if request.is_strict { "strict" } else { "plain" },
    }
}

/// How much was noted.
#[derive(Clone, Copy)]
pub(crate) struct Noted {
    /// One more than the crashes.
    pub(crate) eras: u64,
    pub(crate) calls: u64,
    pub(crate) replies: u64,
    /// How many of the calls are the walk's, each of which has its reply.
    pub(crate) walked: u64,
    /// The calls that the server left aside.
    pub(crate) left_aside: Option<LeftAside>,
}

impl Noted {
    /// What a log has.
    pub(crate) fn in_log(alloc: Global, log: &TapLog) -> Result<Noted, AllocError> {
        let mut noted = Noted {
            eras: 1,
            calls: 0,
            replies: 0,
            walked: 0,
            left_aside: left_aside_in(alloc, log.events())?,
        };
        for event in log.events() {
            match event {
                Event::Call { lane, .. } => {
                    noted.calls = noted.calls.saturating_add(1);
                    if *lane == WALK_LANE {
                        noted.walked = noted.walked.saturating_add(1);
                    }
                }
                Event::Reply { .. } => noted.replies = noted.replies.saturating_add(1),
                Event::Crash => noted.eras = noted.eras.saturating_add(1),
                Event::Close { .. } => {}
            }
        }
        Ok(noted)
    }
}

/// The numbers of a night.
pub(crate) fn numbers_told(
    ran: &Ran,
    noted: Noted,
    troubles: &Troubles,
    judged: &Judgement,
) -> Numbers {
    Numbers {
        start_objects: ran.start.objects().len() as u64,
        eras: noted.eras,
        calls: noted.calls,
        replies: noted.replies,
        judged_and_answered: judged.answered.all,
        troubles: troubles.more().saturating_add(troubles.kept().len() as u64),
    }
}

/// The answer to a question whose reason is a text, if it is no.
fn finding_of(reason: &Option<String>) -> Finding<'_> {
    match reason {
        Some(reason) => Finding::No(reason.as_str()),
        None => Finding::Yes,
    }
}

/// Whether some order explains the history.
fn order_of<'a>(judged: &Judgement, reason: &'a Option<String>) -> Finding<'a> {
    match (reason, &judged.decision) {
        (Some(reason), FileDecision::NoWitness { .. }) => Finding::No(reason.as_str()),
        (Some(reason), _) => Finding::Unknown(reason.as_str()),
        (None, _) => Finding::Yes,
    }
}

/// Whether enough calls were answered, and nothing on this side hindered the night.
fn enough_of(reasons: &Reasons) -> Finding<'_> {
    match (&reasons.enough, &reasons.doubt) {
        (None, Some(doubt)) => Finding::Unknown(doubt.as_str()),
        (enough, _) => finding_of(enough),
    }
}

/// The three answers about a night: health, order, enough.
pub(crate) fn findings_of<'a>(
    judged: &Judgement,
    reasons: &'a Reasons,
) -> (Finding<'a>, Finding<'a>, Finding<'a>) {
    (
        finding_of(&reasons.health),
        order_of(judged, &reasons.order),
        enough_of(reasons),
    )
}

/// Each reason, in the order in which they count.
pub(crate) fn reason_lines(alloc: Global, reasons: &Reasons) -> Result<Vec<String>, AllocError> {
    let mut lines = Vec::new(alloc);
    for reason in [
        &reasons.health,
        &reasons.enough,
        &reasons.order,
        &reasons.doubt,
    ] {
        if let Some(reason) = reason {
            lines.push(String::from_str(alloc, reason.as_str())?)?;
        }
    }
    Ok(lines)
}

/// Writes the files of a night into its folder, but for its history. Whether each is there now.
pub(crate) fn write_files<R: RecordingRuntime>(
    rt: &R,
    path: &str,
    grounds: Grounds<'_>,
    verdict: NightVerdict,
    report: &NightReport<'_>,
) -> Result<bool, AllocError> {
    let (alloc, folder) = (rt.alloc(), Folder { path });
    let mut all = true;
    if let FileDecision::Yes(certificate) = grounds.decision {
        all &= folder.write(rt, "certificate", certificate.as_slice())?;
    }
    let json = report_json(alloc, report)?;
    all &= folder.write(rt, "report.json", json.as_bytes())?;
    let junit = junit_xml(alloc, report)?;
    all &= folder.write(rt, "junit.xml", junit.as_bytes())?;
    if !matches!(verdict, NightVerdict::Yes) {
        all &= write_why(rt, folder, grounds, report)?;
    }
    Ok(all)
}
