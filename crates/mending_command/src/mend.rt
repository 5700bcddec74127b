//! The command `mend`.

ghost use Rattle.std.specs.Prelude.{◌≡◌, ◌<◌, IfOk};
ghost use Rattle.std.specs.Io.KnownBytes.{Appends};
ghost use Rattle.program_streams.specs.Told.{memory_line};

use crate::mend_words::MendRequest;
use history_file::FileFault;
use history_mending::{End, Mended, mend, mended_file};
use program_streams::{Output, Report, are_one_file, line_of, tell_answer};
use std::alloc::{AllocError, Global};
use std::fs;
use std::io::{self, Eprint, ErrorKind};
use std::rt::Files;

/// What is said where the head can't be read.
fn refusal_of(alloc: Global, fault: FileFault) -> Result<Report, AllocError>
    ensures { IfOk result (λ report. report.status ≡ 2) }
{
    match fault {
        FileFault::NoMemory => Err(AllocError),
        fault => Ok(Report::new(2, line_of(alloc, "refused: ", &fault)?)),
    }
}

/// Says what a file isn't, where it doesn't begin as a history does.
fn tell_front<R: Eprint>(rt: &R, path: &str, fault: FileFault) {
    if matches!(fault, FileFault::BadMagic) {
        let _ = eprintln!(rt;
            "nfsbench: {path}: this isn't what nfsbench left: a history begins with NFSHIST1 or NFSHIST2"
        );
    }
}

/// Says where the events end, and why: what was noted behind them isn't there, if anything was.
fn tell_end<R: Eprint>(rt: &R, bytes: usize, mended: &Mended<'_>) {
    let (at, end) = (mended.events_end, mended.end);
    let _ = eprintln!(rt; "the whole events end at byte {at} of {bytes}: {end}");
}

/// The status where the events end so: 0 where a write that was cut off leaves that.
fn status_of(end: End) -> u8
    ensures { result < 3 }
{
    match end {
        End::Whole | End::Cut => 0,
        End::NoEvent | End::CannotFollow(_) | End::Full => 1,
    }
}

/// Says which file can't be used, and why.
fn tell_unusable<R: Eprint>(rt: &R, path: &str, error: io::Error) {
    let _ = eprintln!(rt; "nfsbench: {path}: {error}");
}

/// Writes a history, which can't be the file that is mended. Whether it is there now; why not is said on standard error.
fn is_saved<R: Files + Eprint>(rt: &R, request: &MendRequest<'_>, file: &[u8]) -> bool {
    let path = request.history;
    if are_one_file(rt, path, request.part) {
        let _ = eprintln!(rt; "nfsbench: {path}: this file is the one to be mended");
        return false;
    }
    match fs::write(rt, path, file) {
        Ok(()) => true,
        Err(error) => {
            tell_unusable(rt, path, error);
            false
        }
    }
}

/// Writes the history of what was mended, and says how many events it has.
fn save<R: Files + AllocGlobal + Eprint>(
    rt: &R,
    request: &MendRequest<'_>,
    bytes: usize,
    mended: &Mended<'_>,
    file: &[u8],
) -> Result<Report, AllocError>
    ensures { IfOk result (λ report. report.status < 3) }
{
    if !is_saved(rt, request, file) {
        return Report::refused(rt.alloc(), "cannot write");
    }
    tell_end(rt, bytes, mended);
    let line = line_of(rt.alloc(), "events ", &mended.events.len())?;
    Ok(Report::new(status_of(mended.end), line))
}

/// Mends these bytes, and writes their history.
fn mend_bytes<R: Files + AllocGlobal + Eprint>(
    rt: &R,
    request: &MendRequest<'_>,
    bytes: &[u8],
) -> Result<Report, AllocError>
    ensures { IfOk result (λ report. report.status < 3) }
{
    match mend(rt.alloc(), bytes) {
        Ok(mended) => {
            let file = mended_file(rt.alloc(), bytes, &mended)?;
            save(rt, request, bytes.len(), &mended, file.as_slice())
        }
        Err(fault) => {
            tell_front(rt, request.part, fault);
            refusal_of(rt.alloc(), fault)
        }
    }
}

fn mend_report<R: Files + AllocGlobal + Eprint>(
    rt: &R,
    request: &MendRequest<'_>,
) -> Result<Report, AllocError>
    ensures { IfOk result (λ report. report.status < 3) }
{
    match fs::read(rt, request.part) {
        Ok(bytes) => mend_bytes(rt, request, bytes.as_slice()),
        Err(error) if error.kind() == ErrorKind::OutOfMemory => Err(AllocError),
        Err(error) => {
            tell_unusable(rt, request.part, error);
            Report::refused(rt.alloc(), "unreadable part")
        }
    }
}

/// Writes the history of the whole events in what a recorder left on disk, and says how many they are: status 0. It is 1 where bytes are
/// left that aren't the beginning of one more event, or an event may not follow those before it, or is over a history's limits. 2 is a
/// refusal. Why the events end where they do is said on standard error. Which events these are, [`mend`] says.
pub fn run_mend<R: Files + AllocGlobal + Eprint, O: Output>(
    rt: &R,
    request: &MendRequest<'_>,
    output: &mut O,
) -> u8
    ensures memory_line { result ≡ 3
        → Appends (O.contents output.old) (O.contents output.new) memory_line }
    ensures known { result < 4 }
{
    tell_answer(output, mend_report(rt, request))
}
