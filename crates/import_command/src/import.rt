//! The command `import`.

ghost use Rattle.std.specs.Prelude.{◌≡◌, ◌<◌, true, IsTrue, IfOk};
ghost use Rattle.std.specs.Io.KnownBytes.{Appends};
ghost use Rattle.program_streams.specs.Told.{memory_line};
ghost use Rattle.import_command.specs.Whole.{AreAnswered, IsWhole, MissesNothing};

use crate::import_words::ImportRequest;
use capture_history::{CaptureLog, ImportFault, LaneNote, PassedCounts, import_capture};
use history_file::{Event, WriteFault, write_history};
use nfs_relay::calls_in;
use program_streams::{DigitsFault, Output, Report, decode_digits, line_of, tell_answer};
use recording_health::{Reading, Unanswered, reading_of, unanswered_in};
use std::alloc::{AllocError, Global};
use std::fs;
use std::io::{self, Eprint, ErrorKind, Read};
use std::rt::Files;

/// The bytes of a root's handle, if one is said; nothing inside where its words are no hex.
fn root_of(alloc: Global, words: Option<&str>) -> Result<Option<Option<Vec<u8>>>, AllocError> {
    let Some(words) = words else {
        return Ok(Some(None));
    };
    match decode_digits(alloc, words.as_bytes()) {
        Ok(bytes) => Ok(Some(Some(bytes))),
        Err(DigitsFault::Malformed) => Ok(None),
        Err(DigitsFault::NoMemory) => Err(AllocError),
    }
}

/// Says what became of a lane.
fn tell_note<R: Eprint>(rt: &R, note: &LaneNote) {
    let (lane, kind) = (note.lane, note.kind);
    let (seconds, milliseconds) = (note.time / 1_000_000_000, note.time / 1_000_000 % 1_000);
    let _ = eprintln!(rt; "lane {lane}: {kind}, at {seconds}.{milliseconds:03} seconds");
}

/// Says how many packets have no part in the history, or not all of theirs, for each reason.
fn tell_passed<R: Eprint>(rt: &R, passed: PassedCounts) {
    for (count, reason) in [
        (passed.not_ip, "not IP"),
        (passed.fragments, "a fragment of an IP packet"),
        (passed.not_tcp, "not TCP"),
        (passed.malformed, "a header that no packet has"),
        (passed.cut_headers, "cut in a header by the snap length"),
        (passed.cut_payloads, "cut by the snap length"),
    ] {
        if count > 0 {
            let _ = eprintln!(rt; "packets passed over: {count}: {reason}");
        }
    }
    if passed.too_early > 0 {
        let count = passed.too_early;
        let _ = eprintln!(rt;
            "packets earlier than one before: {count}: sort the capture by time (reordercap)"
        );
    }
    if passed.one_way > 0 {
        let count = passed.one_way;
        let _ = eprintln!(rt; "connections of which one way alone was captured: {count}");
    }
    if passed.without_beginning > 0 {
        let count = passed.without_beginning;
        let _ = eprintln!(rt; "connections that began before the capture: {count}");
    }
    if passed.other_servers > 0 {
        let count = passed.other_servers;
        let _ = eprintln!(rt; "connections to another server than the first: {count}");
    }
}

/// Says so where the words give a handle of no bytes, which is seldom meant.
fn tell_empty<R: Eprint>(rt: &R, request: &ImportRequest<'_>) {
    if matches!(request.root, Some(words) if words.is_empty()) {
        let _ = eprintln!(rt; "the root's handle has no byte: is --root empty by mistake?");
    }
}

/// What is counted of a history that is made of a capture.
#[derive(Clone, Copy)]
struct Counts {
    /// Its calls.
    calls: usize,
    /// Those of them that got no reply.
    unanswered: usize,
    /// What `check` would say of its file, where it is asked, and how many calls are judged.
    reading: Reading,
}

/// Counts what is asked of a history, of which this is the file. Only where the words ask for it the file is read again.
fn counts_of(
    alloc: Global,
    request: &ImportRequest<'_>,
    events: &[Event],
    unanswered: &[Unanswered],
    file: &[u8],
) -> Result<Counts, AllocError> {
    let reading = if request.is_strict {
        reading_of(alloc, file)?
    } else {
        Reading::NONE
    };
    Ok(Counts {
        calls: calls_in(events),
        unanswered: unanswered.len(),
        reading,
    })
}

/// Whether no packet is known to be wanting, and all connections go to one server.
fn misses_nothing(passed: PassedCounts) -> bool
    ensures { IsTrue result → MissesNothing passed }
{
    passed.malformed == 0
        && passed.cut_headers == 0
        && passed.cut_payloads == 0
        && passed.fragments == 0
        && passed.too_early == 0
        && passed.one_way == 0
        && passed.without_beginning == 0
        && passed.other_servers == 0
}

/// Whether each call got its reply, and some are judged.
fn are_answered(counts: Counts) -> bool
    ensures { IsTrue result → AreAnswered counts }
{
    counts.unanswered == 0
        && counts.reading.fault.is_none()
        && counts.reading.judged > 0
        && counts.calls > 0
}

/// Whether nothing of the server's connections is wanting in the capture, and there are judged calls.
fn is_whole(log: &CaptureLog, counts: Counts) -> bool
    ensures { IsTrue result → IsWhole log.now counts }
{
    log.cut.is_none()
        && log.import.notes.is_empty()
        && misses_nothing(log.passed)
        && are_answered(counts)
}

/// Says which call got no reply first, and how many didn't.
fn tell_unanswered<R: Eprint>(rt: &R, unanswered: &[Unanswered]) {
    if let Some(first) = unanswered.first() {
        let (count, lane, xid) = (unanswered.len(), first.lane, first.xid);
        let _ = eprintln!(rt;
            "unanswered calls: {count}: the first on lane {lane} with transaction number {xid}"
        );
    }
}

/// Says what is found in reading the history's file.
fn tell_reading<R: Eprint>(rt: &R, reading: Reading) {
    match reading.fault {
        Some(fault) => {
            let _ = eprintln!(rt; "check refuses the history: {fault}");
        }
        None if reading.judged == 0 => {
            let _ = eprintln!(rt; "no call is judged: is the port that of NFS?");
        }
        None => {}
    }
}

/// Says what of a capture isn't in its history.
fn tell_lacks<R: Eprint>(rt: &R, port: u16, log: &CaptureLog, calls: usize) {
    for note in log.import.notes.iter() {
        tell_note(rt, note);
    }
    tell_passed(rt, log.passed);
    if let Some(at) = log.cut {
        let _ = eprintln!(rt; "the capture is cut off in the packet at byte {at}");
    }
    if calls == 0 {
        let _ = eprintln!(rt; "no call to port {port} was captured");
    }
}

/// Whether what stands at a path begins as the capture does: it is one too, such as the capture itself by another path.
fn is_capture<R: Files>(rt: &R, path: &str, capture: &[u8]) -> bool {
    // A pipe or a device isn't read.
    if !matches!(fs::metadata(rt, path), Ok(known) if known.is_file()) {
        return false;
    }
    let Ok(mut file) = fs::open(rt, path) else {
        return false;
    };
    let mut head = [0u8; 4];
    file.read_exact(&mut head).is_ok() && capture.starts_with(&head)
}

/// Says which file can't be used, and why.
fn tell_unusable<R: Eprint>(rt: &R, path: &str, error: io::Error) {
    let _ = eprintln!(rt; "nfsbench: {path}: {error}");
}

/// Writes the history of a capture, unless a capture is there. Whether it is there now; why not is said on standard error.
fn is_saved<R: Files + Eprint>(
    rt: &R,
    request: &ImportRequest<'_>,
    capture: &[u8],
    file: &[u8],
) -> bool {
    let path = request.history;
    if is_capture(rt, path, capture) {
        let _ = eprintln!(rt; "nfsbench: {path}: a capture is there, which isn't written over");
        return false;
    }
    match fs::write(rt, path, file) {
        Ok(()) => true,
        Err(error) => {
            tell_unusable(rt, path, error);
            false
        }
    }
}

/// The status: 1 where it is asked whether the capture lacks something, and it does.
fn status_of(request: &ImportRequest<'_>, log: &CaptureLog, counts: Counts) -> u8
    ensures bound { result < 3 }
    // With `is_strict` 0 is said of a whole capture alone.
    ensures strict { request.now.is_strict ≡ true → result ≡ 0 → IsWhole log.now counts }
{
    if request.is_strict && !is_whole(log, counts) {
        1
    } else {
        0
    }
}

/// Says what of a capture isn't in its history, of which this is the file, and how many calls it has.
fn told<R: AllocGlobal + Eprint>(
    rt: &R,
    request: &ImportRequest<'_>,
    log: &CaptureLog,
    file: &[u8],
) -> Result<Report, AllocError>
    ensures { IfOk result (λ report. report.status < 3) }
{
    let (alloc, events) = (rt.alloc(), log.import.log.events());
    let unanswered = unanswered_in(alloc, events)?;
    let counts = counts_of(alloc, request, events, unanswered.as_slice(), file)?;
    tell_empty(rt, request);
    tell_lacks(rt, request.port, log, counts.calls);
    tell_unanswered(rt, unanswered.as_slice());
    tell_reading(rt, counts.reading);
    let status = status_of(request, log, counts);
    Ok(Report::new(status, line_of(alloc, "calls ", &counts.calls)?))
}

/// Writes the history of a capture, and says how many calls it has.
fn save<R: Files + AllocGlobal + Eprint>(
    rt: &R,
    request: &ImportRequest<'_>,
    capture: &[u8],
    log: &CaptureLog,
) -> Result<Report, AllocError>
    ensures { IfOk result (λ report. report.status < 3) }
{
    let (alloc, import) = (rt.alloc(), &log.import);
    let file = match write_history(alloc, import.log.root().as_slice(), import.log.events()) {
        Ok(file) => file,
        Err(WriteFault::NoMemory) => return Err(AllocError),
        Err(WriteFault::TooLarge) => return Report::refused(alloc, "over the limits of a history"),
    };
    if !is_saved(rt, request, capture, file.as_slice()) {
        return Report::refused(alloc, "cannot write");
    }
    told(rt, request, log, file.as_slice())
}

/// What is said where a capture gives no history.
fn refusal_of(alloc: Global, fault: ImportFault) -> Result<Report, AllocError>
    ensures { IfOk result (λ report. report.status ≡ 2) }
{
    match fault {
        ImportFault::NoMemory => Err(AllocError),
        fault => Ok(Report::new(2, line_of(alloc, "refused: ", &fault)?)),
    }
}

/// Reads a capture, and writes its history.
fn import_bytes<R: Files + AllocGlobal + Eprint>(
    rt: &R,
    request: &ImportRequest<'_>,
    root: Option<&[u8]>,
) -> Result<Report, AllocError>
    ensures { IfOk result (λ report. report.status < 3) }
{
    let capture = match fs::read(rt, request.capture) {
        Ok(capture) => capture,
        Err(error) if error.kind() == ErrorKind::OutOfMemory => return Err(AllocError),
        Err(error) => {
            tell_unusable(rt, request.capture, error);
            return Report::refused(rt.alloc(), "unreadable capture");
        }
    };
    match import_capture(rt.alloc(), capture.as_slice(), request.port, root) {
        Ok(log) => save(rt, request, capture.as_slice(), &log),
        Err(fault) => refusal_of(rt.alloc(), fault),
    }
}

fn import_report<R: Files + AllocGlobal + Eprint>(
    rt: &R,
    request: &ImportRequest<'_>,
) -> Result<Report, AllocError>
    ensures { IfOk result (λ report. report.status < 3) }
{
    match root_of(rt.alloc(), request.root)? {
        Some(Some(root)) => import_bytes(rt, request, Some(root.as_slice())),
        Some(None) => import_bytes(rt, request, None),
        None => Report::refused(rt.alloc(), "bad root"),
    }
}

/// Writes the history of a capture of packets, and says how many calls it has: status 0, or with `is_strict` 1 where the capture lacks
/// something of the server's connections. 2 is a refusal. What it lacks is said on standard error. What the history has, `import_capture`
/// says.
pub fn run_import<R: Files + AllocGlobal + Eprint, O: Output>(
    rt: &R,
    request: &ImportRequest<'_>,
    output: &mut O,
) -> u8
    ensures memory_line { result ≡ 3
        → Appends (O.contents output.old) (O.contents output.new) memory_line }
    ensures known { result < 4 }
{
    tell_answer(output, import_report(rt, request))
}
