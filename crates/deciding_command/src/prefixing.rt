//! The command `prefix`.

ghost use Rattle.std.specs.Prelude.{◌≡◌, ◌⊎◌, ◌<◌, false, IfOk};
ghost use Rattle.std.specs.Io.KnownBytes.{Appends};
ghost use Rattle.program_streams.specs.Told.{Tells, memory_line};
ghost use Rattle.nfs_history.specs.declared.fault.HistoryFault.{HistoryFault};
ghost use Rattle.nfs_history.specs.FirstFault.{FirstFault};
ghost use Rattle.history_prefix.specs.declared.file.PrefixFile.{PrefixFile};
ghost use Rattle.history_prefix.specs.Front.{is_of_events};
ghost use Rattle.history_prefix.specs.Prefix.{IsPrefixOf};
ghost use Rattle.deciding_command.specs.Written.{events_line};

use crate::prefix_words::PrefixRequest;
use history_prefix::{PrefixFault, PrefixFile, prefix_file};
use program_streams::{
    Output, Report, are_one_file, line_of, tell, tell_answer, tell_want_of_memory,
};
use std::alloc::{AllocError, Global};
use std::fs;
use std::io::Eprint;
use std::rt::Files;

/// Writes a file to a path, unless the history is that file. Whether it is there now; why not is said on standard error.
pub(crate) fn is_written<R: Files + Eprint>(
    rt: &R,
    path: &str,
    history: &str,
    bytes: &[u8],
) -> bool {
    if are_one_file(rt, path, history) {
        let _ = eprintln!(rt; "nfsbench: {path}: this file is read too");
        return false;
    }
    match fs::write(rt, path, bytes) {
        Ok(()) => true,
        Err(error) => {
            let _ = eprintln!(rt; "nfsbench: {path}: {error}");
            false
        }
    }
}

/// Says why the events after a prefix are refused, if they are.
fn tell_refusal<R: Eprint>(rt: &R, request: &PrefixRequest<'_>, prefix: &PrefixFile) {
    let history = request.history;
    if let Some(fault) = prefix.refusal {
        let _ = eprintln!(rt;
            "nfsbench: {history}: {fault}: nothing is kept from the event on that is refused, or that sent the call"
        );
    }
}

/// What is said of a prefix that was written.
fn written_report(alloc: Global, prefix: &PrefixFile) -> Result<Report, AllocError>
    ensures { IfOk result (λ report. (report.status ≡ 0) × (report.line ≡ events_line prefix.now.events)) }
{
    Ok(Report::new(0, line_of(alloc, "events ", &prefix.events)?))
}

/// What is said where there is no prefix.
fn refusal_of(alloc: Global, fault: PrefixFault) -> Result<Report, AllocError>
    ensures { IfOk result (λ report. report.status ≡ 2) }
{
    Ok(Report::new(2, line_of(alloc, "refused: ", &fault)?))
}

/// Writes a prefix, and says so.
fn save<R: Files + AllocGlobal + Eprint, O: Output>(
    rt: &R,
    request: &PrefixRequest<'_>,
    prefix: &PrefixFile,
    output: &mut O,
) -> u8
    ensures written { result ≡ 0 → Appends (O.contents output.old) (O.contents output.new) (events_line prefix.now.events) }
    ensures memory_line { result ≡ 3 → Appends (O.contents output.old) (O.contents output.new) memory_line }
    ensures known { result < 4 }
{
    tell_refusal(rt, request, prefix);
    if is_written(rt, request.prefix, request.history, prefix.bytes.as_slice()) {
        tell_answer(output, written_report(rt.alloc(), prefix))
    } else {
        tell(output, b"refused: cannot write\n", 2)
    }
}

/// Writes the first events of the history that the bytes of a file hold, with the replies that the calls which are open then get later,
/// as [`prefix_file`]. It says how many events that are, and returns the exit status: 0 where the file is written, 2 after a refusal of
/// bytes that can't be read or a failed write, 3 if memory ran out. Of a history that is refused for an event or a call it writes what
/// came before, and says why on standard error.
pub fn prefix_history<R: Files + AllocGlobal + Eprint, O: Output>(
    rt: &R,
    request: &PrefixRequest<'_>,
    history: &[u8],
    output: &mut O,
) -> u8
    // With status 0 there is such a prefix, and it is told how many events that has.
    ensures written { result ≡ 0 → (prefix : PrefixFile) × IsPrefixOf history.now request.now.events prefix
        × Appends (O.contents output.old) (O.contents output.new) (events_line prefix.events) }
    // Bytes that can't be read as the file of a recording are refused, memory aside.
    ensures refused { (fault : HistoryFault) → FirstFault history.now fault → is_of_events fault ≡ false → (result ≡ 2)
        ⊎ Tells result (O.contents output.old) (O.contents output.new) 3 memory_line }
    ensures memory_line { result ≡ 3 → Appends (O.contents output.old) (O.contents output.new) memory_line }
    ensures known { result < 4 }
{
    match prefix_file(rt.alloc(), history, request.events) {
        Ok(prefix) => save(rt, request, &prefix, output),
        Err(PrefixFault::NoMemory) => tell_want_of_memory(output),
        Err(fault) => tell_answer(output, refusal_of(rt.alloc(), fault)),
    }
}
