//! The page of a history.

ghost use Rattle.std.specs.Prelude.{◌≡◌, ℕ, List, Some, IfErr, IsErrAnd};
ghost use Rattle.std.specs.Option.{option_copied};
ghost use Rattle.nfs_history.specs.declared.fault.HistoryFault.{HistoryFault};
ghost use Rattle.nfs_history.specs.FirstFault.{FirstFault};
ghost use Rattle.nfs_history.specs.History.{IsCallsFile};
ghost use Rattle.drawing_command.specs.Stops.{IsRefusal, IsStopOf};

use crate::draw_words::{DrawRequest, Wanted};
use crate::faults::{FaultPlace, is_of_shape, place_of, place_without_certificate};
use certificate::{Certificate, TextFault, read_certificate};
use history_picture::{Page, Request, Window, picture_of, picture_page};
use nfs_history::{HistoryFault, KnownCalls, read_calls};
use std::alloc::{AllocError, Global};
use witness_check::{Fault, FileVerdict, Verdict, check_calls};

/// How many events are drawn ahead of what a picture is around, and behind it.
const MARGIN: u64 = 12;

/// At most so many events lie between two calls that are drawn together because one explains the fault of the other.
const REACH: u64 = 100;

/// What isn't there.
#[derive(Clone, Copy)]
pub(crate) enum Absent {
    /// A call that is asked for.
    Call(u64),
    /// An event that is asked for.
    Event(u64),
    /// Events, since the last that is asked for is ahead of the first.
    Events,
    Memory,
}

impl From<AllocError> for Absent {
    ghost use Rattle.drawing_command.specs.declared.pages.Absent.TheVariants.{Memory};

    ghost from_gives = { λ _ absent. absent ≡ Memory };

    fn from(_error: AllocError) -> Absent {
        Absent::Memory
    }
}

/// Why there is no page.
#[derive(Clone, Copy)]
pub(crate) enum Stop {
    /// The verdict on the files: one of them isn't what it should be, or the certificate is no plan of the history's calls.
    Verdict(FileVerdict),
    Absent(Absent),
}

impl From<AllocError> for Stop {
    ghost use Rattle.drawing_command.specs.declared.pages.Absent.TheVariants.{Memory};
    ghost use Rattle.drawing_command.specs.declared.pages.Stop.TheVariants as stops;

    ghost from_gives = { λ _ stop. stop ≡ stops.Absent Memory };

    fn from(_error: AllocError) -> Stop {
        Stop::Absent(Absent::Memory)
    }
}

impl From<Absent> for Stop {
    ghost use Rattle.drawing_command.specs.declared.pages.Stop.TheVariants as stops;

    ghost from_gives = { λ absent stop. stop ≡ stops.Absent absent };

    fn from(absent: Absent) -> Stop {
        Stop::Absent(absent)
    }
}

/// A certificate with the shape of a plan, and its fault.
#[derive(Drop)]
struct Judged {
    certificate: Certificate,
    fault: Option<Fault>,
}

/// What a picture is of, and where its fault is.
#[derive(Drop)]
struct Subject {
    caption: String,
    place: FaultPlace,
}

/// A history as it was read, with the certificate if there is one.
#[derive(Clone, Copy)]
struct Source<'s, 'a> {
    file: &'a [u8],
    known: &'s KnownCalls<'a>,
    certificate: Option<&'s Certificate>,
}

/// What the picture of a history with a certificate is of.
fn subject_of_judged(
    alloc: Global,
    path: &str,
    known: &KnownCalls<'_>,
    judged: &Judged,
) -> Result<Subject, AllocError> {
    let Some(fault) = judged.fault else {
        let caption = format!(in alloc; "{path}: yes")?;
        let place = FaultPlace::Nowhere;
        return Ok(Subject { caption, place });
    };
    let place = place_of(alloc, known, &judged.certificate, fault)?;
    let caption = format!(in alloc; "{path}: no: {fault}")?;
    Ok(Subject { caption, place })
}

/// What the picture of a history without a certificate is of.
fn subject_of_history(
    alloc: Global,
    path: &str,
    known: &KnownCalls<'_>,
) -> Result<Subject, AllocError> {
    let place = place_without_certificate(alloc, known)?;
    let caption = match place {
        FaultPlace::Call {
            call,
            explaining: Some(one),
        } => format!(in alloc; "{path}: calls {one} and {call} got two write verifiers")?,
        _ => String::from_str(alloc, path)?,
    };
    Ok(Subject { caption, place })
}

/// The events around a call, and those from the call that explains its fault on if that began not too long ago.
fn window_around(known: &KnownCalls<'_>, call: u64, explaining: Option<u64>) -> Window {
    let first = match explaining {
        Some(other) if known.begin(call).saturating_sub(known.begin(other)) <= REACH => other,
        _ => call,
    };
    Window::Around {
        first,
        last: call,
        events: MARGIN,
    }
}

/// The events that are drawn.
fn window_of(known: &KnownCalls<'_>, wanted: Wanted, place: FaultPlace) -> Window {
    match (wanted, place) {
        (Wanted::Call(call), _) => window_around(known, call, None),
        (Wanted::Events { from, to }, _) => Window::Events {
            first: from,
            last: to.unwrap_or(u64::MAX),
        },
        (Wanted::Fault, FaultPlace::Call { call, explaining }) => {
            window_around(known, call, explaining)
        }
        (Wanted::Fault, FaultPlace::Crash(crash)) => Window::Crash {
            crash,
            events: MARGIN,
        },
        (Wanted::Fault, FaultPlace::Nowhere) => Window::Events {
            first: 1,
            last: u64::MAX,
        },
    }
}

/// The call at fault.
fn call_at(place: FaultPlace) -> Option<u64> {
    match place {
        FaultPlace::Call { call, .. } => Some(call),
        FaultPlace::Crash(_) | FaultPlace::Nowhere => None,
    }
}

/// The call that explains the fault; 0, which no call has, if there is none.
fn explaining_at(place: FaultPlace) -> u64 {
    match place {
        FaultPlace::Call { explaining, .. } => explaining.unwrap_or(0),
        FaultPlace::Crash(_) | FaultPlace::Nowhere => 0,
    }
}

/// The call that is asked for, if there is one.
fn asked_by(known: &KnownCalls<'_>, wanted: Wanted) -> Result<Option<u64>, Absent> {
    match wanted {
        Wanted::Call(call) if known.kind(call).is_none() => Err(Absent::Call(call)),
        Wanted::Call(call) => Ok(Some(call)),
        Wanted::Fault | Wanted::Events { .. } => Ok(None),
    }
}

/// Whether a history with so many events has those that are asked for.
fn find_events(wanted: Wanted, events: u64) -> Result<(), Absent> {
    let Wanted::Events { from, to } = wanted else {
        return Ok(());
    };
    if from > events {
        return Err(Absent::Event(from));
    }
    match to {
        Some(to) if to > events => Err(Absent::Event(to)),
        Some(to) if to < from => Err(Absent::Events),
        _ => Ok(()),
    }
}

/// The page of what is asked for.
fn page_for(
    alloc: Global,
    request: &DrawRequest<'_>,
    source: &Source<'_, '_>,
    subject: &Subject,
) -> Result<Page, Absent> {
    let asked = asked_by(source.known, request.wanted)?;
    let explaining = [explaining_at(subject.place)];
    let wanted = Request {
        caption: subject.caption.as_bytes(),
        window: window_of(source.known, request.wanted, subject.place),
        asked,
        fault: call_at(subject.place),
        explaining: explaining.as_slice(),
    };
    let Ok(picture) = picture_of(
        alloc,
        source.file,
        source.known,
        source.certificate,
        &wanted,
    ) else {
        // The bytes were read before, so it is for want of memory.
        return Err(Absent::Memory);
    };
    find_events(request.wanted, picture.events)?;
    Ok(picture_page(alloc, &picture)?)
}

/// The page of a history with a certificate.
fn judged_page<'a>(
    alloc: Global,
    request: &DrawRequest<'_>,
    file: &'a [u8],
    known: &KnownCalls<'a>,
    judged: &Judged,
) -> Result<Page, Absent> {
    let subject = subject_of_judged(alloc, request.history, known, judged)?;
    let source = Source {
        file,
        known,
        certificate: Some(&judged.certificate),
    };
    page_for(alloc, request, &source, &subject)
}

/// The page of a history without one.
fn bare_page<'a>(
    alloc: Global,
    request: &DrawRequest<'_>,
    file: &'a [u8],
    known: &KnownCalls<'a>,
) -> Result<Page, Absent> {
    let subject = subject_of_history(alloc, request.history, known)?;
    let source = Source {
        file,
        known,
        certificate: None,
    };
    page_for(alloc, request, &source, &subject)
}

/// The certificate of this text, if it has the shape of a plan of these calls.
fn judge(alloc: Global, known: &KnownCalls<'_>, text: &[u8]) -> Result<Judged, Stop>
    ensures { (file : List ℕ) → IsCallsFile file known.now → IfErr result (IsStopOf file (Some text.now)) }
{
    let certificate = match read_certificate(alloc, text) {
        Ok(certificate) => certificate,
        Err(TextFault::NoMemory) => return Err(Stop::Absent(Absent::Memory)),
        Err(fault) => return Err(Stop::Verdict(FileVerdict::BadText(fault))),
    };
    match check_calls(alloc, known, &certificate)? {
        Verdict::Yes => Ok(Judged {
            certificate,
            fault: None,
        }),
        Verdict::No(fault) if is_of_shape(fault) => Err(Stop::Verdict(FileVerdict::No(fault))),
        Verdict::No(fault) => Ok(Judged {
            certificate,
            fault: Some(fault),
        }),
    }
}

/// The page of the calls of a history file.
fn page_of_calls<'a>(
    alloc: Global,
    request: &DrawRequest<'_>,
    file: &'a [u8],
    known: &KnownCalls<'a>,
    certificate: Option<&[u8]>,
) -> Result<Page, Stop>
    requires { IsCallsFile file.now known.now }
    ensures { IfErr result (IsStopOf file.now (option_copied certificate.entry)) }
{
    let Some(text) = certificate else {
        return Ok(bare_page(alloc, request, file, known)?);
    };
    let judged = judge(alloc, known, text)?;
    Ok(judged_page(alloc, request, file, known, &judged)?)
}

/// The page of a history file, and of a certificate's text if there is one.
pub(crate) fn page_of(
    alloc: Global,
    request: &DrawRequest<'_>,
    file: &[u8],
    certificate: Option<&[u8]>,
) -> Result<Page, Stop>
    ensures stop { IfErr result (IsStopOf file.now (option_copied certificate.entry)) }
    ensures refused { (fault : HistoryFault) → FirstFault file.now fault → IsErrAnd result IsRefusal }
{
    match read_calls(alloc, file) {
        Ok(known) => page_of_calls(alloc, request, file, &known, certificate),
        Err(HistoryFault::NoMemory) => Err(Stop::Absent(Absent::Memory)),
        Err(fault) => Err(Stop::Verdict(FileVerdict::BadHistory(fault))),
    }
}
